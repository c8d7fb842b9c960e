//! Reading, emptying and deleting.

static ROWS: &'static str = "
three are taken
    queue: q rolling files: fails:
    steps: put 40*a => stored, not due; put 40*b => stored, not due; put 40*c => stored, done; take 40*a => got 40, not due;
        take 40*b => got 40, not due; look q.diskqueue.000000.dat is size 40+40*a+size 40+40*b; take 40*c => got 40, done;
        look q.diskqueue.meta.dat is 0/1,44/1,44/; look q.diskqueue.000000.dat absent; take => empty

a peek leaves the record
    queue: q rolling files: fails:
    steps: peek => empty; put 30*a => stored, not due; put 40*b => stored, not due; peek 30*a => got 30; peek 30*a => got 30;
        depth => 2

a damaged file is passed over, and then another
    queue: q rolling files: fails:
    steps: put 40*a => stored, not due; put 40*b => stored, not due; put 40*c => stored, done;
        write q.diskqueue.000000.dat 44 size 99; take 40*a => got 40, not due; take => damaged 0 44 99; take 40*c => got 40, done;
        put 40*d => stored, not due; cut q.diskqueue.000001.dat 46; take => damaged 1 44 0; take => empty

a read file goes after the save: the third time that names are made durable is in that of the taking
    queue: q rolling files: fails: SyncNames 2 3
    steps: put 40*a => stored, not due; put 40*b => stored, not due; put 40*c => stored, done; take 40*a => got 40, not due;
        take 40*b => got 40, not due; take 40*c => got 40, failed; look q.diskqueue.000000.dat is size 40+40*a+size 40+40*b;
        look q.diskqueue.meta.dat is 3/0,0/1,44/; sync => done
    left: q.diskqueue.000000.dat absent

a failed removal is tried again
    queue: q rolling files: fails: Remove 0 1
    steps: put 40*a => stored, not due; put 40*b => stored, not due; put 40*c => stored, done; empty => done;
        look q.diskqueue.000000.dat is size 40+40*a+size 40+40*b; look q.diskqueue.meta.dat is 0/1,44/1,44/; sync => done
    left: q.diskqueue.000000.dat absent

a deleted queue has no file
    queue: q rolling files: fails:
    steps: put 40*a => stored, not due; put 40*b => stored, not due; put 40*c => stored, done; delete
    left: q.diskqueue.000000.dat absent; q.diskqueue.000001.dat absent; q.diskqueue.meta.dat absent
";

pub fn rows() -> &'static str {
    ROWS
}
