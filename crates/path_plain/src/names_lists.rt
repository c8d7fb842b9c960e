ghost use Rattle.std.specs.Prelude.{◌≡◌, IfOk, option_map, option_and_then, codes};
ghost use Rattle.std.specs.List.{list_any};
ghost use Rattle.std.specs.Str.{bytes_eq};
ghost use Rattle.serde_json.specs.Data.{Data};
ghost use Rattle.serde_json.specs.Find.{get, as_str};
ghost use Rattle.serde_json.specs.View.{view, items_view};
ghost use Rattle.nsq_base.specs.Name.{is_ephemeral};
ghost use Rattle.path_image.specs.Data.{SaysFlag};
ghost use Rattle.path_plain.specs.Reads.{Answers, ItemsKeep, ListKeeps, present};

use crate::by_name::{Named, in_order};
use nsq_base::Memory;
use serde_json::Value;
use std::alloc::Global;

/// What stands in a list of the file of names.
pub trait Listed: Named {
    ghost says: { Data → Self → Type 0 };

    /// What an item says, None where it says nothing.
    fn read(alloc: Global, item: &Value) -> Result<Option<Self>, Memory>
        ensures { IfOk result (Answers says (view item.now)) };

    ghost once: { (item : Data) (x y : Self) → says item x → says item y → x ≡ y };
}

/// The durable ones that a member is a list of, in byte order; none of them where it is absent or null. None where it is
/// another value, an item is bad, or two durable ones have one name.
pub fn read_list<X: Listed>(
    alloc: Global,
    object: &Value,
    key: &str,
) -> Result<Option<Vec<X>>, Memory>
    ensures { IfOk result (λ list. Answers (ListKeeps X.says X.name_of) (get key.now (view object.now)) (option_map (λ v. v.items) list)) }
{
    let Some(member) = present(object, key) else {
        return Ok(Some(Vec::new(alloc)));
    };
    let Some(items) = member.as_array() else {
        return Ok(None);
    };
    match read_items(alloc, items)? {
        Some(durables) => Ok(Some(in_order(alloc, durables)?)),
        None => Ok(None),
    }
}

/// A member of an object; None where it is absent or null.
pub fn present<'a>(object: &'a Value, key: &str) -> Option<&'a Value>
    ensures { option_map (λ v. view v.now) result ≡ present (get key.now (view object.now)) }
{
    let member = object.get(key)?;
    if member.is_null() { None } else { Some(member) }
}

/// Whether an item is paused: false where the member is absent or null, None where it is no truth value.
pub fn flag(item: &Value) -> Option<bool>
    ensures { Answers SaysFlag (get (codes "paused") (view item.now)) result }
{
    match present(item, "paused") {
        Some(member) => member.as_bool(),
        None => Some(false),
    }
}

/// The text of an item's name; None where there is no such text.
pub fn name_in(item: &Value) -> Option<&str>
    ensures { option_map (λ s. s.now) result ≡ option_and_then as_str (get (codes "name") (view item.now)) }
{
    item.get("name")?.as_str()
}

// What the items say without ephemeral ones; None where one is bad or two durable ones have one name.
fn read_items<X: Listed>(alloc: Global, items: &[Value]) -> Result<Option<Vec<X>>, Memory>
    ensures { IfOk result (λ list. Answers (ItemsKeep X.says X.name_of) (items_view items.now) (option_map (λ v. v.items) list)) }
{
    let mut durables = Vec::new(alloc);
    for item in items {
        let Some(listed) = X::read(alloc, item)? else {
            return Ok(None);
        };
        if is_ephemeral(&listed) {
            continue;
        }
        if has(&durables, &listed) {
            return Ok(None);
        }
        durables.push(listed)?;
    }
    Ok(Some(durables))
}

// Whether its name is that of a topic or channel that is never written to disk.
fn is_ephemeral<X: Listed>(listed: &X) -> bool
    ensures { result ≡ is_ephemeral (X.name_of listed.now) }
{
    listed.name().ends_with(b"#ephemeral")
}

// Whether one of these has its name.
fn has<X: Listed>(durables: &[X], listed: &X) -> bool
    ensures { result ≡ list_any (λ other. bytes_eq (X.name_of other) (X.name_of listed.now)) durables.now }
{
    durables.iter().any(|other| other.name() == listed.name())
}
