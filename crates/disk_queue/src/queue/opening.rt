ghost use Rattle.std.specs.Prelude.{◌≡◌, ◌≤◌, IsTrue, IfOk, IfErr};
ghost use Rattle.disk_queue.specs.Seen.{opened_queue};
ghost use Rattle.queue_image.specs.Places.{IsOrdered, IsInRange, distance};
ghost use Rattle.disk_queue.specs.Holding.{SaveStands};
ghost use Rattle.disk_queue.specs.Opened.{IsOpened, IsTidied, RefusedWhere, FilesOfChange};
ghost use Rattle.queue_opening.specs.Refusals.{OpenFails, OpenCounts};

use super::Queue;
use crate::standing::{LastSave, Staged};
use crate::{Open, QueueOptions};
use nsq_outside::{Did, Folder};
use queue_image::Positions;
use queue_opening::{Names, Plan, QueueFiles, make_plan, tidy, write_down};
use std::alloc::Global;

/// Opening.
impl Queue {
    /// The queue that a folder has under that name: the list that `path_plain::found_queue` finds. Makes all room that the other calls
    /// need.
    ///
    /// Without metadata every data file of the name gets `.bad` added to its name. With metadata those above the write file and those that
    /// are damaged get it; those below the read file are removed. The write file is cut at the write position, or to nothing
    /// where the list is empty; where it is damaged, writing goes on in a new file. All that is then saved. A name with `.bad` that is
    /// there already is replaced.
    pub fn open<F: Folder>(
        alloc: Global,
        folder: &mut F,
        name: &str,
        options: QueueOptions,
    ) -> Result<Queue, Open>
        ensures seen { IfOk result (λ q. q ≡ opened_queue name.now options q.depth q.positions) }
        ensures list { IsTrue F.tells_files → IfOk result (λ q. IsOpened q (F.files folder.old) (F.files folder.new)) }
        ensures stands { IsTrue F.tells_files → IfOk result (λ q. SaveStands q (F.files folder.new)) }
        ensures tidied { IsTrue F.tells_files → IfOk result (λ q. IsTidied q (F.files folder.old) (F.files folder.new)) }
        ensures refused { IsTrue F.tells_files → IfErr result (λ e. RefusedWhere options.least options.limit name.now (F.files folder.old) (F.files folder.new) e) }
        ensures others { IsTrue F.tells_files → FilesOfChange name.now (F.files folder.old) (F.files folder.new) }
        ensures faults { F.folder_faults folder.old ≤ F.folder_faults folder.new }
        ensures cause { IfErr result (λ e. OpenFails (F.folder_faults folder.old) (F.folder_faults folder.new) e) }
        ensures exact { IsTrue F.counts_exactly → OpenCounts (F.folder_faults folder.old) (F.folder_faults folder.new) result }
    {
        let Ok(mut files) = QueueFiles::new(alloc, name) else {
            return Err(Open::Memory);
        };
        let Ok(mut names) = Names::new(alloc, name) else {
            close(files);
            return Err(Open::Memory);
        };
        let plan = match make_plan(alloc, folder, &mut files, name, &options) {
            Ok(plan) => plan,
            Err(why) => {
                close(files);
                return Err(why);
            }
        };
        match tidy(folder, &mut names, &mut files, &plan) {
            Did::Done => {}
            Did::Failed => {
                close(files);
                let_go(names, plan);
                return Err(Open::Fault);
            }
        }
        match write_down(folder, &mut files, &plan) {
            Did::Done => {}
            Did::Failed => {
                close(files);
                let_go(names, plan);
                return Err(Open::Fault);
            }
        }
        Ok(opened(files, options, plan.depth, plan.positions))
    }
}

// A queue with a list at these positions, all of which is saved.
fn opened(files: QueueFiles, options: QueueOptions, depth: u128, positions: Positions) -> Queue
    requires order { IsOrdered positions }
    requires range { IsInRange positions }
    requires depth { depth ≤ distance positions.write_file positions.write_at }
    ensures { result ≡ opened_queue files options depth positions }
{
    Queue {
        options,
        depth,
        positions,
        staged: Staged {
            file: positions.write_file,
            at: positions.write_at,
            count: 0,
        },
        saved: LastSave {
            positions,
            finished: true,
            since: 0,
            failed: false,
        },
        mark: None,
        begun: true,
        files,
    }
}

// Lets go of the names of a queue that isn't opened.
fn close(_files: QueueFiles) {}

// Lets go of a plan, and of the names for it.
fn let_go(_names: Names, _plan: Plan) {}
