//! Rows of a folder on the disk.
//!
//! A row is a text: its name, and steps with a `;` between them. A step is a call on the folder with its answer, or one of these:
//!
//! - `sub` makes a sub-folder, and `gone` removes the folder and all that is in it.
//! - `replace PATH BYTES`: another process gives a file these bytes, as a new file in the place of the old one.
//! - `finds PATH BYTES`: another process finds these bytes in a file.
//! - `go PATH`: the object goes to another path, to the other folder, back to the folder, or through a file of it.

use crate::folder_steps::{answers, steps_of};
use crate::words::{cut, part};
use crate::{check, same};
use nsq_system::DirFolder;
use std::fs;
use std::process::Abort;

/// The folder of each row, and another one. Both are there and empty when it begins.
const FOLDER: &str = "base_rows_folder";

const SUB: &str = "base_rows_folder/sub";

const OTHER: &str = "base_rows_other";

/// Where another process writes a file first.
const NEW: &str = "base_rows_other/new";

// The write that fails of a file that stays open is at 2^62.
static ROWS: &'static str = "
files of a folder
        len a = absent; write a 2 one = done; len a = 5; read a 1 = 4 \0one--; write a 7 = done; len a = 7; write a 6 = done; len a = 7;
        write empty 0 = done; len empty = 0; cut a 3 = done; sync a = done; rename a b = done; read a 0 = 0 ------; len b = 3

names of a folder
        sub; cut a 0 = done; list = a; list su =; sync-names = done; remove a = done; remove a = done; len a = absent;
        rename a b = done; len b = absent

what others add shows at the next listing of all names
        list =; replace base_rows_folder/c x; list c =; list = c; list c = c

listings by a beginning
        by-beginning

errors of a folder
        sub; len sub = failed; write sub/a 0 one = failed; gone; len a = absent; write a 0 one = failed; list = failed;
        sync-names = failed

a failed cut leaves what was
        cut-far a = absent; write b 0 one = done; cut-far b = 3

a rename over an open file
        write a 0 one = done; write b 0 two = done; rename a b = done; write b 3 ! = done; finds base_rows_folder/b one!;
        write a 0 new = done; finds base_rows_folder/a new; finds base_rows_folder/b one!

another folder
        write a 0 left = done; list a = a; go base_rows_other; len a = absent; list a =; write a 0 here = done; read a 0 = 4 here;
        go base_rows_folder; read a 0 = 4 left

a file that was removed is made anew
        write a 0 one = done; remove a = done; write a 0 x = done; finds base_rows_folder/a x

a file stays open, until an error closes it
        write a 0 old = done; replace base_rows_folder/a new; read a 0 = 3 old; write a 4611686018427387904 x = failed;
        read a 0 = 3 new

a path through a file
        write a 0 one = done; go base_rows_folder/a; len x = failed; read x 0 = failed; write x 0 y = failed; cut x 0 = failed;
        sync x = failed; sync-names = failed; rename x y = failed; remove x = failed; list = failed
";

/// Makes the folders anew, which are empty then.
fn make_folders(rt: &impl Abort, own: &HostRuntime) {
    remove_folders(own);
    fs::create_dir(own, FOLDER).expect(rt, "a folder");
    fs::create_dir(own, OTHER).expect(rt, "a folder");
}

/// Removes the folders, where they are there.
fn remove_folders(own: &HostRuntime) {
    let _ = fs::remove_dir_all(own, FOLDER);
    let _ = fs::remove_dir_all(own, OTHER);
}

/// Whether a file of the folder can be given these bytes, as a new file in the place of the old one.
fn replaces(own: &HostRuntime, path: &str, bytes: &[u8]) -> bool {
    fs::write(own, NEW, bytes).is_ok() && fs::rename(own, NEW, path).is_ok()
}

/// Whether a file has these bytes.
fn finds(own: &HostRuntime, path: &str, bytes: &[u8]) -> bool {
    match fs::read(own, path) {
        Ok(found) => same(&found, bytes),
        Err(_) => false,
    }
}

/// Whether a step goes so.
fn goes(
    rt: &impl Abort,
    own: &HostRuntime,
    folder: &mut DirFolder<HostRuntime>,
    step: &str,
) -> bool {
    let (what, rest) = cut(step);
    let (path, bytes) = cut(rest);
    match what {
        "sub" => fs::create_dir(own, SUB).is_ok(),
        "gone" => fs::remove_dir_all(own, FOLDER).is_ok(),
        "replace" => replaces(own, path, bytes.as_bytes()),
        "finds" => finds(own, path, bytes.as_bytes()),
        "go" => folder.move_to(path).is_ok(),
        _ => answers(rt, own.alloc(), folder, step),
    }
}

/// Whether the folder answers all steps so.
fn all_go(
    rt: &impl Abort,
    own: &HostRuntime,
    folder: &mut DirFolder<HostRuntime>,
    steps: &str,
) -> bool {
    for step in steps_of(steps).split(';') {
        if !goes(rt, own, folder, step.trim()) {
            return false;
        }
    }
    true
}

fn holds(rt: &impl Abort, own: &HostRuntime, row: &str) -> bool {
    make_folders(rt, own);
    let system = own.clone().expect(rt, "memory");
    let mut folder = DirFolder::new(system, own.alloc(), FOLDER).expect(rt, "memory");
    let (_, steps) = part(rt, row, "\n");
    let all = all_go(rt, own, &mut folder, steps.trim());
    remove_folders(own);
    all
}

#[test]
fn rows(rt: HostRuntime) {
    for row in ROWS.trim().split("\n\n") {
        check(&rt, holds(&rt, &rt, row), row);
    }
}
