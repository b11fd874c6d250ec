// What the run program prints, as bytes.
#![tactic(auto)]

ghost use Rattle.std.specs.Prelude.{◌+◌, ◌≤◌, length, get_or, cond, [], ◌++◌, ◌≡◌};
ghost use Rattle.delivery.specs.Delivered.{delivered};
ghost use Rattle.listing.specs.Listed.{ascii, counts_line, job_run, listed, listing, printed, refusal_line, register_line, register_lines, thread_line, thread_lines};
ghost use Rattle.code.specs.Reader.{read_code};
ghost use Rattle.machine.specs.Answers.{run_of};
ghost use Rattle.machine.specs.Steps.{fresh, state_from};
ghost use Rattle.script.specs.Jobs.{Job};
ghost use Rattle.script.specs.Outcome.{done};
ghost use Rattle.terms.specs.Numbers.{outcome, reason_number};
ghost use Rattle.thread.specs.Threads.{exists};

mod page;

use page::Page;
use terms::{Reason, Refusal};
use thread::Thread;

// The first line: the counts.
fn put_counts(page: &mut Page, reply: &machine::RunReply)
    requires { page.old ≡ [] }
    ensures text { page.new ≡ counts_line (record { steps = reply.now.steps; idle = reply.now.idle; commits = reply.now.commits; back = reply.now.back; over = reply.now.over }) }
    ensures bound { length page.new ≤ 134 }
{
    page.put_number(b"steps ", reply.steps);
    page.put_number(b" idle ", reply.idle);
    page.put_number(b" commits ", reply.commits);
    page.put_number(b" back ", reply.back);
    page.put_number(b" over ", reply.over);
    page.put(b"\n");
}

// A thread's line.
fn put_thread(page: &mut Page, i: usize, t: &Thread)
    requires { length page.old + 55 ≤ 4449 }
    ensures text { page.new ≡ page.old ++ thread_line i t.now }
    ensures bound { length page.new ≤ length page.old + 55 }
{
    page.put_number(b"thread ", i);
    if t.place == t.end {
        page.put_integer(b" done ", t.cells[0]);
    } else {
        page.put(b" open\n");
    }
}

// The line of a record, if it is of a thread.
fn put_record(page: &mut Page, i: usize, t: &Thread)
    requires { length page.old + 55 ≤ 4449 }
    ensures text { page.new ≡ page.old ++ cond (exists t.now) (thread_line i t.now) [] }
    ensures bound { length page.new ≤ length page.old + 55 }
{
    if t.start != 0 {
        put_thread(page, i, t);
    }
}

// The threads, ascending.
fn put_threads(page: &mut Page, threads: &[Thread; 17])
    requires { length page.old + 935 ≤ 4449 }
    ensures text { page.new ≡ page.old ++ thread_lines 0 threads.now }
    ensures bound { length page.new ≤ length page.old + 935 }
{
    for (i, t) in threads.iter().enumerate() {
        put_record(page, i, t);
    }
}

// A register's line, if it is not 0.
fn put_register(page: &mut Page, v: usize, n: i32)
    requires { length page.old + 52 ≤ 4449 }
    ensures text { page.new ≡ page.old ++ register_line v n }
    ensures bound { length page.new ≤ length page.old + 52 }
{
    if n != 0 {
        page.put_number(b"register ", v);
        page.put_integer(b" ", n);
    }
}

// The registers, ascending.
fn put_registers(page: &mut Page, registers: &[i32; 65])
    requires { length page.old + 3380 ≤ 4449 }
    ensures { page.new ≡ page.old ++ register_lines 0 registers.now }
{
    for (v, n) in registers.iter().enumerate() {
        put_register(page, v, *n);
    }
}

// The line of a refusal, from its number and place: a run's reply holds these.
fn put_refusal(page: &mut Page, number: usize, place: usize)
    requires { page.old ≡ [] }
    ensures { page.new ≡ refusal_line number place }
{
    page.put_number(b"refused ", number);
    page.put_number(b" at ", place);
    page.put(b"\n");
}

// The line of a job's or an input's refusal.
fn put_refused(page: &mut Page, refusal: Refusal)
    requires { page.old ≡ [] }
    ensures { page.new ≡ refusal_line (reason_number refusal.reason) refusal.place }
{
    put_refusal(page, usize::from(refusal.reason.number()), refusal.place);
}

// The listing of a run.
fn put_listing(page: &mut Page, ran: &owned::Left<machine::RunReply>)
    requires { page.old ≡ [] }
    ensures { page.new ≡ listing (record { steps = ran.now.reply.steps; idle = ran.now.reply.idle; commits = ran.now.reply.commits; back = ran.now.reply.back; over = ran.now.reply.over }) (state_from ran.now.state.registers ran.now.state.counts ran.now.state.threads) }
{
    put_counts(page, &ran.reply);
    put_threads(page, &ran.state.threads);
    put_registers(page, &ran.state.registers);
}

// What a run of the code on a fresh state prints, or its refusal.
fn put_run(page: &mut Page, code: &[u8], picks: &[u8])
    requires empty { page.old ≡ [] }
    requires accepted { (j : Job) × (read_code code.now ≡ done j) }
    ensures { page.new ≡ printed (run_of code.now (fresh code.now) picks.now) }
{
    let ran = owned::shown(code, picks);
    if ran.reply.refusal == 0 {
        put_listing(page, &ran);
    } else {
        put_refusal(page, ran.reply.refusal, ran.reply.place);
    }
}

// What a job and picks print.
fn put_job(page: &mut Page, job: &[u8], picks: &[u8])
    requires { page.old ≡ [] }
    ensures { page.new ≡ printed (job_run job.now picks.now) }
{
    let mut code = [0; 5005];
    match compiler::compile(job, &mut code) {
        Ok(length) => put_run(page, &code[..length], picks),
        Err(refusal) => put_refused(page, refusal),
    }
}

// What an input prints.
fn print(page: &mut Page, input: &[u8])
    requires { page.old ≡ [] }
    ensures { page.new ≡ listed input.now }
{
    if input.len() < 2 {
        put_refused(page, Reason::Cut.at(input.len()));
        return;
    }
    let n = usize::from(word::number16(input[0], input[1]));
    let end = n + 2;
    if input.len() < end {
        put_refused(page, Reason::Cut.at(input.len())); // bytes of the input, not of the job
        return;
    }
    put_job(page, &input[2..end], &input[end..]);
}

// What the run program prints for an input, into the front of `out`. Total: any input, any output. An output of 4,449 bytes is always long enough.
pub fn report(input: &[u8], out: &mut [u8]) -> Result<usize, Refusal>
    ensures out_value { delivered (done (listed input.now)) out.old ≡ record { answer = outcome result; output = out.new } }
    ensures input_len_bound { length (listed input.now) ≤ 4449 }
{
    let mut page = Page::new();
    print(&mut page, input);
    delivery::deliver(out, page.text())
}
