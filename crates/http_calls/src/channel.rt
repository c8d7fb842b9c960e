ghost use Rattle.http_calls.specs.Tokens.{channel_tokens};

use crate::list::{Item, put_list};
use crate::members::{put_count, put_depth, put_flag, put_name};
use broker_history::ChannelStats;
use json::Writer;
use std::alloc::{AllocError, Global};

impl Item for ChannelStats {
    ghost tokens = { channel_tokens };

    fn put(&self, alloc: Global, page: &mut Writer) -> Result<(), AllocError> {
        page.begin_object()?;
        put_depth(page, "backend_depth", self.backend_depth)?;
        put_name(page, "channel_name", self.channel_name.as_str())?;
        put_list(alloc, page, "clients", self.clients.as_slice())?;
        put_count(page, "deferred_count", self.deferred_count)?;
        put_depth(page, "depth", self.depth)?;
        put_count(page, "in_flight_count", self.in_flight_count)?;
        put_count(page, "message_count", self.message_count)?;
        put_flag(page, "paused", self.paused)?;
        put_count(page, "requeue_count", self.requeue_count)?;
        put_count(page, "timeout_count", self.timeout_count)?;
        page.end_object()
    }
}
