//! Members of objects.

ghost use Rattle.std.specs.Prelude.{◌≡◌, [], ◌∷◌, ◌++◌, OnOk};
ghost use Rattle.json.specs.Token.{key, string, boolean};
ghost use Rattle.http_calls.specs.Tokens.{count_tokens, said_tokens};

use itoa::Buffer;
use json::Writer;
use std::alloc::{AllocError, Global};
use std::str;

/// Writes a count.
pub(crate) fn put_count(page: &mut Writer, name: &str, count: u64) -> Result<(), AllocError>
    ensures ok { OnOk result (page.new.tokens ≡ page.old.tokens ++ count_tokens name.now count) }
    ensures before { page.new.before ≡ page.old.before }
{
    page.key(name)?;
    page.u64(count)
}

/// Writes a depth, a count that may pass 64 bits.
pub(crate) fn put_depth(page: &mut Writer, name: &str, depth: u128) -> Result<(), AllocError>
    ensures ok { OnOk result (page.new.tokens ≡ page.old.tokens ++ count_tokens name.now depth) }
    ensures before { page.new.before ≡ page.old.before }
{
    page.key(name)?;
    let mut digits = Buffer::new();
    page.number(digits.format(depth))
}

/// Writes a truth value.
pub(crate) fn put_flag(page: &mut Writer, name: &str, flag: bool) -> Result<(), AllocError>
    ensures ok { OnOk result (page.new.tokens ≡ page.old.tokens ++ key name.now ∷ boolean flag ∷ []) }
    ensures before { page.new.before ≡ page.old.before }
{
    page.key(name)?;
    page.boolean(flag)
}

/// Writes a string.
pub(crate) fn put_name(page: &mut Writer, name: &str, text: &str) -> Result<(), AllocError>
    ensures ok { OnOk result (page.new.tokens ≡ page.old.tokens ++ key name.now ∷ string text.now ∷ []) }
    ensures before { page.new.before ≡ page.old.before }
{
    page.key(name)?;
    page.string(text)
}

/// Writes what a client said; each sequence that isn't UTF-8 is written as U+FFFD.
pub(crate) fn put_said(
    alloc: Global,
    page: &mut Writer,
    name: &str,
    said: &[u8],
) -> Result<(), AllocError>
    ensures ok { OnOk result (page.new.tokens ≡ page.old.tokens ++ said_tokens name.now said.now) }
    ensures before { page.new.before ≡ page.old.before }
{
    if let Ok(text) = str::from_utf8(said) {
        return put_name(page, name, text);
    }
    let text = String::from_utf8_lossy(alloc, said)?;
    put_name(page, name, text.as_str())
}
