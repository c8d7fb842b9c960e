//! The calls of the folder that each call of a queue makes, in their order.

static ROWS: &'static str = "
the first record: its file is cut where writing begins
    queue: q rolling files: fails: steps:
    then: put 40*a => stored, not due
    calls: Cut q.diskqueue.000000.dat; WriteAt q.diskqueue.000000.dat

a further record is written alone
    queue: q rolling files: fails:
    steps: put 40*a => stored, not due
    then: put 40*b => stored, not due
    calls: WriteAt q.diskqueue.000000.dat

a long record: its size, and then its bytes
    queue: q wide files: fails: steps:
    then: put 5000*a => stored, not due
    calls: Cut q.diskqueue.000000.dat; WriteAt q.diskqueue.000000.dat; WriteAt q.diskqueue.000000.dat

a full file: it is cut and synced, the next one is emptied and written, and that is saved
    queue: q rolling files: fails:
    steps: put 40*a => stored, not due; put 40*b => stored, not due
    then: put 40*c => stored, done
    calls: Cut q.diskqueue.000000.dat; Sync q.diskqueue.000000.dat; Cut q.diskqueue.000001.dat; WriteAt q.diskqueue.000001.dat;
        Sync q.diskqueue.000001.dat; SyncNames; Cut q.diskqueue.meta.dat.tmp; WriteAt q.diskqueue.meta.dat.tmp;
        Sync q.diskqueue.meta.dat.tmp; Rename q.diskqueue.meta.dat.tmp q.diskqueue.meta.dat; SyncNames

a record is staged and forgotten
    queue: q rolling files: fails:
    steps: put 40*a => stored, not due
    then: forget 30*b
    calls: WriteAt q.diskqueue.000000.dat

a record is staged and committed
    queue: q rolling files: fails:
    steps: put 40*a => stored, not due
    then: commit 30*b => not due
    calls: WriteAt q.diskqueue.000000.dat

a save: the write file, the names, the metadata by way of its temporary, the names
    queue: q rolling files: fails:
    steps: put 40*a => stored, not due
    then: sync => done
    calls: Sync q.diskqueue.000000.dat; SyncNames; Cut q.diskqueue.meta.dat.tmp; WriteAt q.diskqueue.meta.dat.tmp;
        Sync q.diskqueue.meta.dat.tmp; Rename q.diskqueue.meta.dat.tmp q.diskqueue.meta.dat; SyncNames

a save that isn't due
    queue: q rolling files: fails:
    steps: put 40*a => stored, not due; sync => done
    then: sync => not due
    calls:

a peek reads the size and then the record
    queue: q rolling files: fails:
    steps: put 40*a => stored, not due
    then: peek 40*a => got 40
    calls: ReadAt q.diskqueue.000000.dat; ReadAt q.diskqueue.000000.dat

a taking in the next file: the file that is read out goes after the save
    queue: q rolling files: fails:
    steps: put 40*a => stored, not due; put 40*b => stored, not due; put 40*c => stored, done; take 40*a => got 40, not due;
        take 40*b => got 40, not due
    then: take 40*c => got 40, done
    calls: ReadAt q.diskqueue.000000.dat; Len q.diskqueue.000000.dat; ReadAt q.diskqueue.000001.dat; ReadAt q.diskqueue.000001.dat;
        Sync q.diskqueue.000001.dat; SyncNames; Cut q.diskqueue.meta.dat.tmp; WriteAt q.diskqueue.meta.dat.tmp;
        Sync q.diskqueue.meta.dat.tmp; Rename q.diskqueue.meta.dat.tmp q.diskqueue.meta.dat; SyncNames; Remove q.diskqueue.000000.dat

an emptying: the files that were read go after the save
    queue: q rolling files: fails:
    steps: put 40*a => stored, not due; put 40*b => stored, not due; put 40*c => stored, done
    then: empty => done
    calls: Sync q.diskqueue.000001.dat; SyncNames; Cut q.diskqueue.meta.dat.tmp; WriteAt q.diskqueue.meta.dat.tmp;
        Sync q.diskqueue.meta.dat.tmp; Rename q.diskqueue.meta.dat.tmp q.diskqueue.meta.dat; SyncNames; Remove q.diskqueue.000000.dat

a deletion: an emptying, then the data files, then the metadata
    queue: q rolling files: fails:
    steps: put 40*a => stored, not due; put 40*b => stored, not due; put 40*c => stored, done
    then: delete
    calls: Sync q.diskqueue.000001.dat; SyncNames; Cut q.diskqueue.meta.dat.tmp; WriteAt q.diskqueue.meta.dat.tmp;
        Sync q.diskqueue.meta.dat.tmp; Rename q.diskqueue.meta.dat.tmp q.diskqueue.meta.dat; SyncNames; Remove q.diskqueue.000000.dat;
        Remove q.diskqueue.000001.dat; Remove q.diskqueue.000002.dat; Remove q.diskqueue.meta.dat
    left: q.diskqueue.meta.dat absent; q.diskqueue.000001.dat absent

a deletion in which a data file stays: the metadata of the empty list does too
    queue: q rolling files: fails: Remove 1 2
    steps: put 40*a => stored, not due; put 40*b => stored, not due; put 40*c => stored, done
    then: delete
    calls: Sync q.diskqueue.000001.dat; SyncNames; Cut q.diskqueue.meta.dat.tmp; WriteAt q.diskqueue.meta.dat.tmp;
        Sync q.diskqueue.meta.dat.tmp; Rename q.diskqueue.meta.dat.tmp q.diskqueue.meta.dat; SyncNames; Remove q.diskqueue.000000.dat;
        Remove q.diskqueue.000001.dat
    left: q.diskqueue.meta.dat is 0/1,44/1,44/

a deletion in whose emptying a data file stays: its removal is tried again
    queue: q rolling files: fails: Remove 0 1
    steps: put 40*a => stored, not due; put 40*b => stored, not due; put 40*c => stored, done
    then: delete
    calls: Sync q.diskqueue.000001.dat; SyncNames; Cut q.diskqueue.meta.dat.tmp; WriteAt q.diskqueue.meta.dat.tmp;
        Sync q.diskqueue.meta.dat.tmp; Rename q.diskqueue.meta.dat.tmp q.diskqueue.meta.dat; SyncNames; Remove q.diskqueue.000000.dat;
        Remove q.diskqueue.000000.dat; Remove q.diskqueue.000001.dat; Remove q.diskqueue.000002.dat; Remove q.diskqueue.meta.dat
    left: q.diskqueue.000000.dat absent

an opening of a damaged queue: what was read goes, what is above and what is bad is set aside, the write file is cut, and that is saved
    queue: q short
    files: q.diskqueue.meta.dat is 3/1,0/3,5/; q.diskqueue.000000.dat is size 1+z; q.diskqueue.000001.dat is size 1+a+size 2+bc;
        q.diskqueue.000003.dat is size 2+de; q.diskqueue.000004.dat is above
    fails: steps:
    then: open => 2
    calls: Len q.diskqueue.meta.dat; ReadAt q.diskqueue.meta.dat; List; Len q.diskqueue.000001.dat; ReadAt q.diskqueue.000001.dat;
        ReadAt q.diskqueue.000001.dat; Len q.diskqueue.000003.dat; ReadAt q.diskqueue.000003.dat; Remove q.diskqueue.000000.dat;
        Rename q.diskqueue.000004.dat q.diskqueue.000004.dat.bad; Rename q.diskqueue.000003.dat q.diskqueue.000003.dat.bad;
        Cut q.diskqueue.000004.dat; Sync q.diskqueue.000004.dat; SyncNames; Cut q.diskqueue.meta.dat.tmp;
        WriteAt q.diskqueue.meta.dat.tmp; Sync q.diskqueue.meta.dat.tmp; Rename q.diskqueue.meta.dat.tmp q.diskqueue.meta.dat;
        SyncNames; Remove q.diskqueue.000000.dat

an opening without metadata: every data file is set aside
    queue: q short
    files: q.diskqueue.000000.dat is size 1+a; q.diskqueue.000001.dat is size 1+b
    fails: steps:
    then: open => 0
    calls: Len q.diskqueue.meta.dat; List; Rename q.diskqueue.000000.dat q.diskqueue.000000.dat.bad;
        Rename q.diskqueue.000001.dat q.diskqueue.000001.dat.bad; Cut q.diskqueue.000000.dat; Sync q.diskqueue.000000.dat; SyncNames;
        Cut q.diskqueue.meta.dat.tmp; WriteAt q.diskqueue.meta.dat.tmp; Sync q.diskqueue.meta.dat.tmp;
        Rename q.diskqueue.meta.dat.tmp q.diskqueue.meta.dat; SyncNames

a file is replaced: the names, its temporary, the rename, the names
    queue: q rolling files: fails: steps:
    then: replace one => done
    calls: SyncNames; Cut b; WriteAt b; Sync b; Rename b a; SyncNames
";

pub fn rows() -> &'static str {
    ROWS
}
