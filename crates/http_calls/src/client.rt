ghost use Rattle.http_calls.specs.Tokens.{client_tokens};

use crate::list::Item;
use crate::members::{put_count, put_said};
use broker_history::ClientStats;
use json::Writer;
use std::alloc::{AllocError, Global};

impl Item for ClientStats {
    ghost tokens = { client_tokens };

    fn put(&self, alloc: Global, page: &mut Writer) -> Result<(), AllocError> {
        page.begin_object()?;
        put_said(alloc, page, "client_id", self.client_id.bytes())?;
        put_count(page, "finish_count", self.finish_count)?;
        put_said(alloc, page, "hostname", self.hostname.bytes())?;
        put_count(page, "in_flight_count", self.in_flight_count)?;
        put_count(page, "message_count", self.message_count)?;
        put_count(page, "ready_count", self.ready_count)?;
        put_count(page, "requeue_count", self.requeue_count)?;
        put_said(alloc, page, "user_agent", self.user_agent.bytes())?;
        page.end_object()
    }
}
