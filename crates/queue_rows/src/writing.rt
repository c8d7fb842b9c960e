//! Writing and saving.

static ROWS: &'static str = "
three records in two files
    queue: q rolling files: fails:
    steps: put 40*a => stored, not due; put 40*b => stored, not due; put 40*c => stored, done; put 61*d => too-long 60; depth => 3
    left: q.diskqueue.meta.dat is 3/0,0/1,44/; q.diskqueue.meta.dat.tmp absent

a message to the byte
    queue: t rolling
    files: t.diskqueue.000000.dat is what another run left behind, which is longer than the record
    fails: steps: put zeros 10+0000010000000000hi => stored, not due; sync => done
    left: t.diskqueue.000000.dat is size 28+zeros 10+0000010000000000hi; t.diskqueue.meta.dat is 1/0,0/0,32/

a second save is not due
    queue: q rolling files: fails: WriteAt 3 4
    steps: put 40*a => stored, not due; put 40*b => stored, not due; sync => done; sync => not due; put 40*c => fault; depth => 2

a short record is one write
    queue: q wide files: fails: WriteAt 1 2
    steps: put 4096*a => stored, not due; put 4096*b => fault
    left: q.diskqueue.000000.dat is size 4096+4096*a

a long record is two writes
    queue: q wide files: fails: WriteAt 1 2
    steps: put 5000*a => fault; look q.diskqueue.000000.dat is size 5000; put 5000*b => stored, not due
    left: q.diskqueue.000000.dat is size 5000+5000*b

a forgotten record leaves its place
    queue: q rolling files: fails:
    steps: forget 30*a; depth => 0; commit 30*b => not due; depth => 1
    left: q.diskqueue.000000.dat is size 30+30*b

a failed rename leaves the file
    queue: q rolling files: fails: Rename 1 2
    steps: replace one => done; look a is one; look b absent; replace two => failed; look a is one; replace 3 => done
    left: a is 3

nothing is saved before the records are durable
    queue: q rolling files: fails: Sync 0 1
    steps: put 40*a => stored, not due; sync => failed
    left: q.diskqueue.meta.dat.tmp absent

nothing is saved before the names are durable
    queue: q rolling files: fails: SyncNames 0 1
    steps: put 40*a => stored, not due; sync => failed
    left: q.diskqueue.meta.dat.tmp absent

no metadata before its text is durable
    queue: q rolling files: fails: Sync 1 2
    steps: put 40*a => stored, not due; sync => failed
    left: q.diskqueue.meta.dat.tmp is 1/0,0/0,44/; q.diskqueue.meta.dat absent

a save ends with the names
    queue: q rolling files: fails: SyncNames 1 2
    steps: put 40*a => stored, not due; sync => failed
    left: q.diskqueue.meta.dat is 1/0,0/0,44/

a full file is durable before the next
    queue: q rolling files: fails: Sync 0 1
    steps: put 40*a => stored, not due; put 40*b => stored, not due; put 40*c => fault
    left: q.diskqueue.000000.dat is size 40+40*a+size 40+40*b; q.diskqueue.000001.dat absent

a file is cut once
    queue: q rolling files: fails: Cut 1 2
    steps: put 40*a => stored, not due; put 40*b => stored, not due
";

pub fn rows() -> &'static str {
    ROWS
}
