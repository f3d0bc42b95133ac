//! What each command leaves to do once its input was read.

ghost use Rattle.std.specs.Prelude.{◌≡◌, ◌≤◌, length};
ghost use Rattle.vp_command.specs.Commands.{InRange};
ghost use Rattle.vp_run.specs.Answer.{job_of};

use std::alloc::Global;
use vp_answer::{HeapWork, Job, Status, Stop, Work};
use vp_audit::{AuditJob, CompileJob};
use vp_cert::CertifyJob;
use vp_check::{Checked, check_job};
use vp_command::Task;
use vp_cross::CrossJob;
use vp_deal::DealJob;
use vp_gen::PlayJob;
use vp_hits::HitsJob;
use vp_holds::HoldsJob;
use vp_io::{Sink, WriteFault};
use vp_meter::MeterJob;
use vp_multi::MultiJob;
use vp_replay::ReplayJob;
use vp_sessions::SessionsJob;

/// The jobs that take no memory but the words that they are lent.
#[derive(Drop)]
pub enum LentJob<'a> {
    Deal(DealJob),
    Holds(HoldsJob),
    Certify(CertifyJob),
    Audit(AuditJob<'a>),
    Cross(CrossJob),
    Checked(Checked),
    Replay(ReplayJob<'a>),
    Meter(MeterJob),
    Multi(MultiJob),
    Hits(HitsJob),
}

/// The jobs that take memory of their own beside the words that they are lent.
#[derive(Drop)]
pub enum HeapJob<'a> {
    Sessions(SessionsJob<'a>),
    Play(PlayJob),
    Compile(CompileJob),
}

impl<'a> Work for LentJob<'a> {
    ghost use Rattle.vp_run.specs.Answer.{lent_due};
    ghost use Rattle.vp_run.specs.SomeText.{lent_some};

    ghost due = { lent_due };

    ghost some_text = { lent_some };

    fn words(&self) -> usize {
        match self {
            LentJob::Deal(job) => job.words(),
            LentJob::Holds(job) => job.words(),
            LentJob::Certify(job) => job.words(),
            LentJob::Audit(job) => job.words(),
            LentJob::Cross(job) => job.words(),
            LentJob::Checked(job) => job.words(),
            LentJob::Replay(job) => job.words(),
            LentJob::Meter(job) => job.words(),
            LentJob::Multi(job) => job.words(),
            LentJob::Hits(job) => job.words(),
        }
    }

    fn put<K: Sink>(&self, memory: &mut [u64], sink: &mut K) -> Result<(), WriteFault> {
        match self {
            LentJob::Deal(job) => job.put(memory, sink),
            LentJob::Holds(job) => job.put(memory, sink),
            LentJob::Certify(job) => job.put(memory, sink),
            LentJob::Audit(job) => job.put(memory, sink),
            LentJob::Cross(job) => job.put(memory, sink),
            LentJob::Checked(job) => job.put(memory, sink),
            LentJob::Replay(job) => job.put(memory, sink),
            LentJob::Meter(job) => job.put(memory, sink),
            LentJob::Multi(job) => job.put(memory, sink),
            LentJob::Hits(job) => job.put(memory, sink),
        }
    }
}

impl<'a> HeapWork for HeapJob<'a> {
    ghost use Rattle.vp_run.specs.Answer.{heap_due};
    ghost use Rattle.vp_run.specs.SomeText.{heap_some};

    ghost due = { heap_due };

    ghost some_text = { heap_some };

    fn words(&self) -> usize {
        match self {
            HeapJob::Sessions(job) => job.words(),
            HeapJob::Play(job) => job.words(),
            HeapJob::Compile(job) => job.words(),
        }
    }

    fn write<K: Sink>(&self, alloc: Global, memory: &mut [u64], sink: &mut K) -> Status {
        match self {
            HeapJob::Sessions(job) => job.write(alloc, memory, sink),
            HeapJob::Play(job) => job.write(alloc, memory, sink),
            HeapJob::Compile(job) => job.write(alloc, memory, sink),
        }
    }
}

/// Reads the input of a task.
pub(crate) fn job_of(task: Task, bytes: &[u8]) -> Result<Job<LentJob<'_>, HeapJob<'_>>, Stop>
    requires range { InRange task }
    requires limit { length bytes.now ≤ 67108864 }
    ensures { result ≡ job_of task bytes.now }
{
    Ok(match task {
        Task::Deal(coin) => Job::Lent(LentJob::Deal(DealJob::read(coin, bytes)?)),
        Task::Holds(coin) => Job::Lent(LentJob::Holds(HoldsJob::read(coin, bytes)?)),
        Task::Certify(coin) => Job::Lent(LentJob::Certify(CertifyJob::read(coin, bytes)?)),
        Task::Audit(coin) => Job::Lent(LentJob::Audit(AuditJob::read(coin, bytes)?)),
        Task::Cross(coin) => Job::Lent(LentJob::Cross(CrossJob::read(coin, bytes)?)),
        Task::Check { from, count } => Job::Lent(LentJob::Checked(check_job(from, count, bytes)?)),
        Task::Replay => Job::Lent(LentJob::Replay(ReplayJob::read(bytes)?)),
        Task::Meter { coin, line, lo, hi } => Job::Lent(LentJob::Meter(MeterJob::read(
            coin, &line, lo, hi, bytes,
        )?)),
        Task::Multi { coin, hands } => Job::Lent(LentJob::Multi(MultiJob::read(
            coin, hands, bytes,
        )?)),
        Task::Hits(coin) => Job::Lent(LentJob::Hits(HitsJob::read(coin, bytes)?)),
        Task::Sessions => Job::Heap(HeapJob::Sessions(SessionsJob::read(bytes)?)),
        Task::Play { coin, seed, games } => Job::Heap(HeapJob::Play(PlayJob::read(
            coin, seed, games, bytes,
        )?)),
        Task::Compile { coin, millionths } => Job::Heap(HeapJob::Compile(CompileJob::read(
            coin, millionths, bytes,
        )?)),
    })
}
