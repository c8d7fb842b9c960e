ghost use Rattle.std.specs.Prelude.{◌≡◌, ◌++◌, ◌∷◌, [], IfOk, OnOk, OnErr};

use crate::folder_calls::FolderCall;
use nsq_base::Memory;
use std::alloc::Global;
use std::marker::Model;

/// A call that was made on a folder in memory: its method and the name of its file.
///
/// A rename has its old name there, and its new one in `to`; of any other call `to` is empty. A listing and a sync of names
/// have no name; how the names of a listing are to begin isn't kept.
#[derive(Drop)]
pub struct Called {
    pub call: FolderCall,
    pub name: String,
    pub to: String,
}

impl Model for Called {
    ghost use Rattle.std.specs.Prelude.{string_bytes};
    ghost use Rattle.nsq_fakes.specs.Made.{Made};

    ghost Value = { Made };

    ghost view = { λ called. record { call = called.call; name = string_bytes called.name; to = string_bytes called.to } };
}

/// Appends a call. Without memory the list stays.
pub fn keep_call(
    alloc: Global,
    list: &mut Vec<Called>,
    call: FolderCall,
    name: &str,
    to: &str,
) -> Result<(), Memory>
    ensures ok { OnOk result (list.new.items ≡ list.old.items ++ record { call = call; name = name.now; to = to.now } ∷ []) }
    ensures err { OnErr result (list.new.items ≡ list.old.items) }
{
    list.reserve(1)?;
    list.push_reserved(call_of(alloc, call, name, to)?);
    Ok(())
}

/// A call, with copies of its names.
fn call_of(alloc: Global, call: FolderCall, name: &str, to: &str) -> Result<Called, Memory>
    ensures { IfOk result (λ called. called ≡ record { call = call; name = name.now; to = to.now }) }
{
    Ok(Called {
        call,
        name: String::from_str(alloc, name)?,
        to: String::from_str(alloc, to)?,
    })
}
