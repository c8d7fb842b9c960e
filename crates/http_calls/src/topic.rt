ghost use Rattle.http_calls.specs.Tokens.{topic_tokens};

use crate::list::{Item, put_list};
use crate::members::{put_count, put_depth, put_flag, put_name};
use broker_history::TopicStats;
use json::Writer;
use std::alloc::{AllocError, Global};

impl Item for TopicStats {
    ghost tokens = { topic_tokens };

    fn put(&self, alloc: Global, page: &mut Writer) -> Result<(), AllocError> {
        page.begin_object()?;
        put_depth(page, "backend_depth", self.backend_depth)?;
        put_list(alloc, page, "channels", self.channels.as_slice())?;
        put_depth(page, "depth", self.depth)?;
        put_count(page, "message_count", self.message_count)?;
        put_flag(page, "paused", self.paused)?;
        put_name(page, "topic_name", self.topic_name.as_str())?;
        page.end_object()
    }
}
