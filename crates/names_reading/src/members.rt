ghost use Rattle.std.specs.Prelude.{◌≡◌, option_map, option_and_then, codes};
ghost use Rattle.serde_json.specs.Find.{get, as_str};
ghost use Rattle.serde_json.specs.View.{view};
ghost use Rattle.path_image.specs.Data.{SaysFlag, SaysEpoch};
ghost use Rattle.names_reading.specs.Reading.{Answers, present};

use serde_json::Value;

// The greatest epoch.
const LAST_EPOCH: u64 = 16_777_215;

// A member of an object; None where it is absent or null.
pub(crate) fn present<'a>(object: &'a Value, key: &str) -> Option<&'a Value>
    ensures { option_map (λ v. view v.now) result ≡ present (get key.now (view object.now)) }
{
    let member = object.get(key)?;
    if member.is_null() { None } else { Some(member) }
}

// Whether an item is paused: false where the member is absent or null, None where it is no truth value.
pub(crate) fn flag(item: &Value) -> Option<bool>
    ensures { Answers SaysFlag (get (codes "paused") (view item.now)) result }
{
    match present(item, "paused") {
        Some(member) => member.as_bool(),
        None => Some(false),
    }
}

// The text of an item's name; None where there is no such text.
pub(crate) fn name_in(item: &Value) -> Option<&str>
    ensures { option_map (λ s. s.now) result ≡ option_and_then as_str (get (codes "name") (view item.now)) }
{
    item.get("name")?.as_str()
}

// The epoch that an object says; None where it is no whole number from 0 to the greatest epoch.
pub(crate) fn epoch_in(object: &Value) -> Option<u32>
    ensures { Answers SaysEpoch (get (codes "id_epoch") (view object.now)) result }
{
    let Some(member) = present(object, "id_epoch") else {
        return Some(0);
    };
    match member.as_u64() {
        Some(epoch) if epoch <= LAST_EPOCH => Some(epoch as u32),
        _ => None,
    }
}
