//! The tool: from the words of a command line to a status and a printed text.
ghost use Rattle.std.specs.Prelude.{◌≡◌, ◌≢◌, ◌⊎◌, false, IfOk, OnErr};
ghost use Rattle.sig_io.specs.Causes.{Rose};
ghost use Rattle.sigma_app.specs.Requests as requests;
ghost use Rattle.sigma_app.specs.Tool as spec;
ghost use Rattle.sigma_app.specs.Run as run;

use crate::check::{clauses_reply, diagnostics_reply};
use crate::gather::{Gathering, gather};
use crate::limits::{is_size, limits_of};
use crate::query::query_reply;
use crate::refusals::is_refused;
use crate::reply::{Reply, fixed_reply};
use crate::requests::{Ask, Request, WordsError, request_of};
use sig_io::{Files, Sink, Words, WriteError, write_all};
use sigma_base::NoMemory;
use std::alloc::Global;

const USAGE: &[u8] =
    b"usage: sigma ask [--turns N] [--answers N] [--kept N] [--mode support|full] QUERY FILE...
       sigma check FILE...
       sigma clauses FILE...
       sigma export FILE...
       sigma drill N
       sigma serve --port P --workers N --store FILE
";

fn not_built(alloc: Global) -> Result<Reply, NoMemory>
    ensures { IfOk result (λ reply. spec.Is 10 spec.not_built reply.status reply.text) }
{
    fixed_reply(alloc, 10, b"not built\n")
}

fn usage(alloc: Global) -> Result<Reply, NoMemory>
    ensures { IfOk result (λ reply. spec.Is 2 spec.usage reply.status reply.text) }
{
    fixed_reply(alloc, 2, USAGE)
}

/// The reply to a query that isn't refused.
fn ask_reply<F: Files>(alloc: Global, ask: &Ask<'_>, files: &mut F) -> Result<Reply, NoMemory>
    requires good { requests.is_refused (requests.asks (requests.asked_value ask.now)) ≡ false }
    ensures told { F.told files.new ≡ F.told files.old }
    ensures reply { IfOk result (λ reply. run.OnAsk (requests.asked_value ask.now) (F.told files.old) (F.faults files.old) (F.faults files.new) reply.status reply.text) }
    ensures cause { OnErr result (run.MayHaveRisen (F.faults files.old) (F.faults files.new)) }
    ensures unfetched { run.ReadsNone (requests.asks (requests.asked_value ask.now)) → F.faults files.new ≡ F.faults files.old }
{
    let Some(limits) = limits_of(ask) else {
        return usage(alloc);
    };
    match gather(alloc, ask.files.as_slice(), files)? {
        Gathering::Found(found) => query_reply(
            alloc,
            ask.query.as_bytes(),
            limits,
            found.parts.items(),
            found.forms.as_slice(),
        ),
        Gathering::Stopped(reply) => Ok(reply),
    }
}

/// The reply to a check that isn't refused.
fn check_reply<F: Files>(alloc: Global, paths: &[&str], files: &mut F) -> Result<Reply, NoMemory>
    requires good { requests.is_refused (requests.checks (requests.texts paths.now)) ≡ false }
    ensures told { F.told files.new ≡ F.told files.old }
    ensures reply { IfOk result (λ reply. run.OnGoodRequest (requests.checks (requests.texts paths.now)) (F.told files.old) (F.faults files.old) (F.faults files.new) reply.status reply.text) }
    ensures cause { OnErr result (run.MayHaveRisen (F.faults files.old) (F.faults files.new)) }
    ensures unfetched { run.ReadsNone (requests.checks (requests.texts paths.now)) → F.faults files.new ≡ F.faults files.old }
{
    match gather(alloc, paths, files)? {
        Gathering::Found(found) => diagnostics_reply(
            alloc,
            found.parts.items(),
            found.forms.as_slice(),
        ),
        Gathering::Stopped(reply) => Ok(reply),
    }
}

/// The reply to a command for clauses that isn't refused.
fn give_clauses<F: Files>(alloc: Global, paths: &[&str], files: &mut F) -> Result<Reply, NoMemory>
    requires good { requests.is_refused (requests.gives_clauses (requests.texts paths.now)) ≡ false }
    ensures told { F.told files.new ≡ F.told files.old }
    ensures reply { IfOk result (λ reply. run.OnGoodRequest (requests.gives_clauses (requests.texts paths.now)) (F.told files.old) (F.faults files.old) (F.faults files.new) reply.status reply.text) }
    ensures cause { OnErr result (run.MayHaveRisen (F.faults files.old) (F.faults files.new)) }
    ensures unfetched { run.ReadsNone (requests.gives_clauses (requests.texts paths.now)) → F.faults files.new ≡ F.faults files.old }
{
    match gather(alloc, paths, files)? {
        Gathering::Found(found) => clauses_reply(
            alloc,
            found.parts.items(),
            found.forms.as_slice(),
        ),
        Gathering::Stopped(reply) => Ok(reply),
    }
}

/// The reply to a drill, by its size.
fn drill_reply(alloc: Global, size: &str) -> Result<Reply, NoMemory>
    ensures { IfOk result (λ reply. spec.OnDrill size.now reply.status reply.text) }
{
    if is_size(size) {
        not_built(alloc)
    } else {
        usage(alloc)
    }
}

/// The reply to a request.
fn request_reply<F: Files>(
    alloc: Global,
    request: &Request<'_>,
    files: &mut F,
) -> Result<Reply, NoMemory>
    ensures told { F.told files.new ≡ F.told files.old }
    ensures reply { IfOk result (λ reply. run.OnRequest (requests.meaning_of request.now) (F.told files.old) (F.faults files.old) (F.faults files.new) reply.status reply.text) }
    ensures cause { OnErr result (run.MayHaveRisen (F.faults files.old) (F.faults files.new)) }
    ensures unfetched { run.ReadsNone (requests.meaning_of request.now) → F.faults files.new ≡ F.faults files.old }
{
    if is_refused(alloc, request)? {
        return usage(alloc);
    }
    match request {
        Request::Ask(ask) => ask_reply(alloc, ask, files),
        Request::Check(paths) => check_reply(alloc, paths.as_slice(), files),
        Request::Clauses(paths) => give_clauses(alloc, paths.as_slice(), files),
        Request::Export(_) => not_built(alloc),
        Request::Drill(size) => drill_reply(alloc, size),
    }
}

fn reply_to<F: Files>(alloc: Global, words: &Words, files: &mut F) -> Result<Reply, NoMemory>
    ensures told { F.told files.new ≡ F.told files.old }
    ensures reply { IfOk result (λ reply. run.Obtains words.now (F.told files.old) (F.faults files.old) (F.faults files.new) reply.status reply.text) }
    ensures cause { OnErr result (run.MayHaveRisen (F.faults files.old) (F.faults files.new)) }
    ensures unfetched { run.NeedsNoFile words.now → F.faults files.new ≡ F.faults files.old }
{
    match request_of(alloc, words) {
        Ok(request) => request_reply(alloc, &request, files),
        Err(WordsError::Usage) => usage(alloc),
        Err(WordsError::NoMemory) => Err(NoMemory),
    }
}

fn print_reply<S: Sink>(out: &mut S, reply: &Reply) -> u8
    ensures { run.Printed reply.now.status reply.now.text (S.told out.old) (S.told out.new) (S.faults out.old) (S.faults out.new) result }
{
    match write_all(out, reply.text.bytes()) {
        Ok(()) => reply.status,
        Err(WriteError::Failed) => 8,
        Err(WriteError::NoMemory) => 9,
    }
}

/// Does what the words ask, with files from `files`, and prints to `out`. The answer is the status: 0 an answer, a contradiction, or the page of a check or of
/// clauses is shown, 1 neither an answer nor a contradiction is shown, 2 the words are refused, 3 a file is absent, 4 one could not be fetched, 5 a text has a fault, 6 a limit is
/// passed, 7 the query is refused, 8 a write failed, 9 want of memory, 10 the command is not built yet.
pub fn run_tool<F: Files, S: Sink>(alloc: Global, words: &Words, files: &mut F, out: &mut S) -> u8
    // Status and text are the tool's for some contents; where the files tell what they hold, for just these. An answer that is shown has
    // a proof: a derivation that ends in just what is shown, whose cited lines hold its premises and whose evidence refutes.
    ensures answered { run.IsTrouble result ⊎ run.Appends words.now (F.told files.old) (S.told out.old) (S.told out.new) result }

    // When the words are refused. They have to be where they mean nothing, what they mean is refused, or an option or the size of a drill
    // may not have its value.
    ensures usage { result ≡ 2 → run.MayBeRefused words.now }
    ensures refused { run.MustBeRefused words.now → (result ≡ 2) ⊎ run.IsCutShort result }

    // Where the words need no file, as those don't that have to be refused, none is fetched, as any fetch may fail.
    ensures unfetched { run.NeedsNoFile words.now → F.faults files.new ≡ F.faults files.old }

    // What the counts of faults tell.
    ensures file_fault { result ≡ 4 → run.ReportsFault words.now (F.told files.old) (F.faults files.old) (F.faults files.new) (S.told out.old) (S.told out.new) }
    ensures file_cause { (F.faults files.new ≡ F.faults files.old) ⊎ (Rose (F.faults files.old) (F.faults files.new) × run.IsTrouble result) }
    ensures write_fault { result ≡ 8 → Rose (S.faults out.old) (S.faults out.new) }
    ensures write_cause { result ≢ 8 → S.faults out.new ≡ S.faults out.old }

    // Cut short, the text is a prefix of that of another status; where memory was wanting, there may be none.
    ensures write_prefix { result ≡ 8 → run.AppendsPart words.now (F.told files.old) (F.faults files.old) (F.faults files.new) (S.told out.old) (S.told out.new) }
    ensures memory_prefix { result ≡ 9 → (S.told out.new ≡ S.told out.old) ⊎ run.AppendsPart words.now (F.told files.old) (F.faults files.old) (F.faults files.new) (S.told out.old) (S.told out.new) }
    ensures told { F.told files.new ≡ F.told files.old }
{
    match reply_to(alloc, words, files) {
        Ok(reply) => print_reply(out, &reply),
        Err(NoMemory) => 9,
    }
}
