// The print queue (added): a value that the host keeps. A job joins at the back. A turn sends one page of the job at the front.
#![tactic(auto)]

ghost use Rattle.std.specs.Prelude.{◌≡◌, ◌-◌, ◌≤◌, ◌<◌};
ghost use Rattle.std.proofs.Math.Seq.{slice};
ghost use Rattle.queue.specs.Jobs.{most_jobs, waits, proper, join_of};
ghost use Rattle.queue.specs.Arrays.{counted, jobs_in, jobs_of, padded, queue_of, joined_of, turned_of};
ghost use Rattle.queue.specs.Parts.{with_last, verdict_in};

use refusals::{JOB_UNFIT, QUEUE_FULL, Refusal};

const MOST_JOBS: usize = 16;

const MOST_ID: u32 = 65535;

const MOST_PAGES: u32 = 16;

// How many jobs wait, and each one's id and pages left, with the front job first. The rest of the arrays is 0. C has the two arrays and the
// count, so they stay apart.
#[repr(C)]
#[derive(Clone, Copy)]
pub struct Queue {
    pub jobs: u32,
    pub ids: [u32; MOST_JOBS],
    pub pages: [u32; MOST_JOBS],
}

#[repr(C)]
#[derive(Clone, Copy)]
pub struct Joined {
    pub refusal: Refusal,
    pub queue: Queue,
}

// The job whose page was sent, and its pages then left. Both are 0 if no job waits.
#[repr(C)]
#[derive(Clone, Copy)]
pub struct Turned {
    pub id: u32,
    pub pages: u32,
    pub queue: Queue,
}

// The jobs that are counted: at most 16, since a host may pass any count.
fn count(jobs: u32) -> usize
    ensures { (result ≡ counted jobs) × (result ≤ most_jobs) }
{
    (jobs as usize).min(MOST_JOBS)
}

fn in_range(id: u32, pages: u32) -> bool
    ensures { result ≡ proper id pages }
{
    (1..=MOST_ID).contains(&id) && (1..=MOST_PAGES).contains(&pages)
}

fn waits(queue: &Queue, id: u32) -> bool
    ensures { result ≡ waits id (jobs_of queue.now) }
{
    let n = count(queue.jobs);
    queue.ids[..n].contains(&id)
}

// The numbers from place `from` to before `to`, moved to the front. The rest is 0.
fn part(a: &[u32; MOST_JOBS], from: usize, to: usize) -> [u32; MOST_JOBS]
    requires { (from ≤ to) × (to ≤ most_jobs) }
    ensures { result ≡ padded (slice from to a.now) }
{
    let mut out = [0; MOST_JOBS];
    out[..to - from].copy_from_slice(&a[from..to]);
    out
}

fn lined(queue: &Queue, from: usize, to: usize) -> Queue
    requires { (from ≤ to) × (to ≤ most_jobs) }
    ensures { (result ≡ queue_of (jobs_in queue.now from to)) × (result.jobs ≡ to - from) }
{
    Queue {
        jobs: (to - from) as u32,
        ids: part(&queue.ids, from, to),
        pages: part(&queue.pages, from, to),
    }
}

fn with_last(queue: Queue, id: u32, pages: u32) -> Queue
    requires { queue.jobs < most_jobs }
    ensures { result ≡ with_last queue id pages }
{
    let mut q = queue;
    let n = q.jobs as usize;
    q.ids[n] = id;
    q.pages[n] = pages;
    q.jobs += 1;
    q
}

// Whether a job may join. 17 is tried before 16.
fn judge(queue: &Queue, id: u32, pages: u32) -> Result<(), Refusal>
    ensures { result ≡ verdict_in (join_of (jobs_of queue.now) id pages).event }
{
    if !in_range(id, pages) {
        return Err(Refusal::new(JOB_UNFIT, id));
    }
    if waits(queue, id) {
        return Err(Refusal::new(JOB_UNFIT, id));
    }
    if count(queue.jobs) < MOST_JOBS {
        return Ok(());
    }
    Err(Refusal::new(QUEUE_FULL, id))
}

// A refused job leaves every number of the queue as it was.
pub fn join(queue: Queue, id: u32, pages: u32) -> Joined
    ensures { result ≡ joined_of queue id pages }
{
    if let Err(refusal) = judge(&queue, id, pages) {
        return Joined { refusal, queue };
    }
    let n = count(queue.jobs);
    let q = with_last(lined(&queue, 0, n), id, pages);
    Joined {
        refusal: Refusal::none(),
        queue: q,
    }
}

// Sends a page of the front job, which then goes to the back if it has pages left.
pub fn turn(queue: Queue) -> Turned
    ensures { result ≡ turned_of queue }
{
    let n = count(queue.jobs);
    if n == 0 {
        return Turned {
            id: 0,
            pages: 0,
            queue,
        };
    }
    let id = queue.ids[0];
    let pages = queue.pages[0].saturating_sub(1);
    let rest = lined(&queue, 1, n);
    if pages == 0 {
        return Turned {
            id,
            pages,
            queue: rest,
        };
    }
    let q = with_last(rest, id, pages);
    Turned {
        id,
        pages,
        queue: q,
    }
}
