ghost use Rattle.std.specs.Prelude.{◌≡◌, IfOk};
ghost use Rattle.json.specs.Print.{quoted};
ghost use Rattle.nsq_base.specs.Options.{IsInRange};
ghost use Rattle.nsq_base.specs.Text.{IsText};
ghost use Rattle.http_calls.specs.Info.{info_text, told};

use crate::append::joined;
use itoa::Buffer;
use json::Writer;
use nsq_base::time::SECOND;
use nsq_base::{Body, Memory, Options, port};
use std::alloc::Global;

/// What the daemon tells of itself, in JSON: it began at this moment, in nanoseconds. Want of memory is the only error.
pub(crate) fn info_text(alloc: Global, options: &Options, began: u64) -> Result<Body, Memory>
    requires { IsInRange options.now }
    ensures { IfOk result (λ text. text ≡ info_text options.now began) }
{
    let address = quoted(alloc, options.broadcast_address.bytes())?;
    let mut http_port = Buffer::new();
    let mut start_time = Buffer::new();
    let mut tcp_port = Buffer::new();
    let text = told(
        alloc,
        &address,
        http_port
            .format(port(options.http_address.bytes()))
            .as_bytes(),
        start_time.format(began / SECOND).as_bytes(),
        tcp_port
            .format(port(options.tcp_address.bytes()))
            .as_bytes(),
    )?;
    Ok(Body::of(text))
}

/// The text of these parts.
fn told<'a>(
    alloc: Global,
    address: &'a [u8],
    http_port: &'a [u8],
    start_time: &'a [u8],
    tcp_port: &'a [u8],
) -> Result<Vec<u8>, Memory>
    ensures { IfOk result (λ text. text.items ≡ told address.now http_port.now start_time.now tcp_port.now) }
{
    joined(
        alloc,
        &[
            br#"{"broadcast_address":"#,
            address,
            br#","hostname":"#,
            address,
            br#","http_port":"#,
            http_port,
            br#","start_time":"#,
            start_time,
            br#","tcp_port":"#,
            tcp_port,
            br#","version":"1.0.0"}"#,
        ],
    )
}

/// A text as a string in JSON.
fn quoted(alloc: Global, text: &[u8]) -> Result<Vec<u8>, Memory>
    requires { IsText text.now }
    ensures { IfOk result (λ string. string.items ≡ quoted text.now) }
{
    let Ok(text) = std::str::from_utf8(text) else {
        unreachable!()
    };
    let mut page = Writer::new(Vec::new(alloc));
    page.string(text)?;
    Ok(page.into_inner())
}
