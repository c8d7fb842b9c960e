/// Calls that take a topic.
pub(crate) static TOPICS: &[u8] = b"\
no query|POST /topic/create HTTP/1.1\r\n\r\n|400 json {\"message\":\"MISSING_ARG_TOPIC\"}~\
another argument alone|POST /topic/create?Topic=t HTTP/1.1\r\n\r\n|400 json {\"message\":\"MISSING_ARG_TOPIC\"}~\
an empty topic|POST /topic/create?topic= HTTP/1.1\r\n\r\n|400 json {\"message\":\"INVALID_TOPIC\"}~\
a topic that is no name|POST /topic/create?topic=a%20b HTTP/1.1\r\n\r\n|400 json {\"message\":\"INVALID_TOPIC\"}~\
the suffix alone|POST /topic/create?topic=%23ephemeral HTTP/1.1\r\n\r\n|400 json {\"message\":\"INVALID_TOPIC\"}~\
65 bytes|POST /topic/create?topic=aaaaaaaaaaaaaaaaaaaaaaaaaaaaaaaaaaaaaaaaaaaaaaaaaaaaaaaaaaaaaaaaa HTTP/1.1\r\n\r\n|400 json {\"message\":\"INVALID_TOPIC\"}~\
64 bytes|POST /topic/create?topic=aaaaaaaaaaaaaaaaaaaaaaaaaaaaaaaaaaaaaaaaaaaaaaaaaaaaaaaaaaaaaaaa HTTP/1.1\r\n\r\n|create aaaaaaaaaaaaaaaaaaaaaaaaaaaaaaaaaaaaaaaaaaaaaaaaaaaaaaaaaaaaaaaa *~\
an ephemeral topic|POST /topic/create?topic=t%23ephemeral HTTP/1.1\r\n\r\n|create t#ephemeral *~\
of two topics the first counts|POST /topic/create?topic=a&topic=b HTTP/1.1\r\n\r\n|create a *~\
the first counts where it is no name|POST /topic/create?topic=&topic=b HTTP/1.1\r\n\r\n|400 json {\"message\":\"INVALID_TOPIC\"}~\
a channel is passed over|POST /topic/delete?topic=t&channel= HTTP/1.1\r\n\r\n|delete t *~\
";

/// Calls that take a topic and a channel.
pub(crate) static CHANNELS: &[u8] = b"\
no names|POST /channel/create HTTP/1.1\r\n\r\n|400 json {\"message\":\"MISSING_ARG_TOPIC\"}~\
a channel alone|POST /channel/create?channel= HTTP/1.1\r\n\r\n|400 json {\"message\":\"MISSING_ARG_TOPIC\"}~\
a bad topic|POST /channel/create?topic= HTTP/1.1\r\n\r\n|400 json {\"message\":\"INVALID_ARG_TOPIC\"}~\
a bad topic and a bad channel|POST /channel/create?channel=%2F&topic=%2F HTTP/1.1\r\n\r\n|400 json {\"message\":\"INVALID_ARG_TOPIC\"}~\
a topic alone|POST /channel/create?topic=t HTTP/1.1\r\n\r\n|400 json {\"message\":\"MISSING_ARG_CHANNEL\"}~\
a bad channel|POST /channel/create?topic=t&channel= HTTP/1.1\r\n\r\n|400 json {\"message\":\"INVALID_ARG_CHANNEL\"}~\
a channel of 65 bytes|POST /channel/create?topic=t&channel=aaaaaaaaaaaaaaaaaaaaaaaaaaaaaaaaaaaaaaaaaaaaaaaaaaaaaaaaaaaaaaaaa HTTP/1.1\r\n\r\n|400 json {\"message\":\"INVALID_ARG_CHANNEL\"}~\
both|POST /channel/create?channel=c&topic=t HTTP/1.1\r\n\r\n|create t c~\
";

/// What is asked of topics and channels.
pub(crate) static VERBS: &[u8] = b"\
create a topic|POST /topic/create?topic=t&channel=c HTTP/1.1\r\n\r\n|create t *~\
delete a topic|POST /topic/delete?topic=t&channel=c HTTP/1.1\r\n\r\n|delete t *~\
empty a topic|POST /topic/empty?topic=t&channel=c HTTP/1.1\r\n\r\n|empty t *~\
pause a topic|POST /topic/pause?topic=t&channel=c HTTP/1.1\r\n\r\n|pause t *~\
unpause a topic|POST /topic/unpause?topic=t&channel=c HTTP/1.1\r\n\r\n|unpause t *~\
create a channel|POST /channel/create?topic=t&channel=c HTTP/1.1\r\n\r\n|create t c~\
delete a channel|POST /channel/delete?topic=t&channel=c HTTP/1.1\r\n\r\n|delete t c~\
empty a channel|POST /channel/empty?topic=t&channel=c HTTP/1.1\r\n\r\n|empty t c~\
pause a channel|POST /channel/pause?topic=t&channel=c HTTP/1.1\r\n\r\n|pause t c~\
unpause a channel|POST /channel/unpause?topic=t&channel=c HTTP/1.1\r\n\r\n|unpause t c~\
";
