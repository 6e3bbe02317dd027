ghost use Rattle.std.specs.Prelude.{◌≡◌, ◌≤◌, ◌∷◌, [], ℕ, List, codes, map, Err, IfOk, IsErrOf};
ghost use Rattle.std.specs.Fmt.{decimal};
ghost use Rattle.pec_outside.specs.Flow.{HasRisen};
ghost use Rattle.pec_load.specs.Heard.{load_input};
ghost use Rattle.pec_load_runs.specs.Loading.{LoadRan, LoadTells, state_text, summary_text, written_behind};
ghost use Rattle.pec_ledger.specs.Network.{Site};
ghost use Rattle.pec_ledger.specs.Trade.{Trade};
ghost use Rattle.pec_runs.specs.Statuses as statuses;
ghost use Rattle.pec_script.specs.Pages.{line_after};
ghost use Rattle.pec_top.specs.Reporting.{IsTold};
ghost use Rattle.pec_top.specs.Running.{AreHomeAgain};
ghost use Rattle.pec_top.specs.Shown.{end_shown, loaded_stop, result_shown};

use crate::ending::{End, Stop};
use crate::forms::Form;
use crate::reporting::Report;
use crate::run::{run_form, write_last};
use pec_load::{MOST_MESSAGES, generate, load_directory};
use pec_load_runs::a_load_is_played_as_a_run;
use pec_outside::{Depot, Disk, MemSink, MemSource, Sink};
use pec_screen::Judge;
use pec_script::{Page, lines_are_put_in_their_order};
use pec_serving::Summary;
use pec_types::NoMemory;
use std::alloc::Global;
use std::thread::Threads;

/// How many bytes of its input a load reads at once.
const PIECE: usize = 65_536;

/// Runs the program in the form that plays a load of so many messages: it makes a directory and a script, plays them as
/// a run does, and in the end writes what has become of the messages.
pub(crate) fn load_form<X: Threads + Sync, W: Sink, P: Depot, J: Judge + Send>(
    rt: &X,
    alloc: Global,
    count: u64,
    out: &mut W,
    depot: &mut P,
    screens: Vec<J>,
) -> Result<End, Stop>
where
    J::Spare: Send,
    requires { count ≤ MOST_MESSAGES }
    // (the input isn't touched, so its count stands still)
    ensures loaded { (input : ℕ) → LoadRan (P.tells × P.D.tells) P.D.sight P.D.faults count (map J.patterns screens.items)
        (result_shown result) (W.held out.old) (W.held out.new) (P.home depot.old) (P.home depot.new)
        (record { source = input; sink = W.faults out.old; depot = P.faults depot.old; disks = P.last depot.old })
        (record { source = input; sink = W.faults out.new; depot = P.faults depot.new; disks = P.last depot.new }) }
    ensures home { P.tells → AreHomeAgain (P.home depot.old) (P.home depot.new) }
{
    a_load_is_played_as_a_run::<P>();
    let input = input_text(alloc, count)?;
    let mut source = MemSource::new(alloc, input, PIECE, Vec::new(alloc));
    let mut lines = MemSink::new(alloc, Vec::new(alloc));
    let spares = Vec::new(alloc);
    let mut report = Report::Asked;
    let run = run_form(
        rt,
        alloc,
        Form::Run,
        &mut source,
        &mut lines,
        depot,
        screens,
        spares,
        &mut report,
    );
    end_load(alloc, count, run, report, lines.bytes(), out)
}

/// The directory of a load, the mark, and its script.
fn input_text(alloc: Global, count: u64) -> Result<Vec<u8>, NoMemory>
    requires { count ≤ MOST_MESSAGES }
    ensures { IfOk result (λ text. text.items ≡ load_input count) }
{
    let script = generate(alloc, count)?;
    let page = Page {
        text: load_directory(alloc)?,
    };
    let page = page.begin(b"%%\n")?.begin(&script)?;
    Ok(page.text)
}

/// Ends a load whose run ended or was stopped so, wrote these lines, and was told of so.
fn end_load<W: Sink>(
    alloc: Global,
    count: u64,
    run: Result<End, Stop>,
    report: Report,
    lines: &[u8],
    out: &mut W,
) -> Result<End, Stop>
    ensures told { (trade : Trade) (sites : List Site) → (result_shown run ≡ statuses.Done → IsTold report trade sites)
        → LoadTells (result_shown result) (result_shown run)
        (written_behind count (result_shown run) lines.now trade sites) (W.held out.old) (W.held out.new) }
    ensures write_fault { IsErrOf result Stop.WriteFault → HasRisen (W.faults out.old) (W.faults out.new) }
    ensures read_fault { IsErrOf result Stop.ReadFault → ⊥ }
    ensures started { IsErrOf result Stop.StartFault → run ≡ Err Stop.StartFault }
    ensures later { W.faults out.old ≤ W.faults out.new }
{
    match run {
        Ok(end) => end_ended(alloc, count, end, report, lines, out),
        Err(stop) => Err(loaded_stop(stop)),
    }
}

/// Ends a load whose run ended so.
fn end_ended<W: Sink>(
    alloc: Global,
    count: u64,
    end: End,
    report: Report,
    lines: &[u8],
    out: &mut W,
) -> Result<End, Stop>
    ensures told { (trade : Trade) (sites : List Site) → (end_shown end ≡ statuses.Done → IsTold report trade sites)
        → LoadTells (result_shown result) (end_shown end)
        (written_behind count (end_shown end) lines.now trade sites) (W.held out.old) (W.held out.new) }
    ensures write_fault { IsErrOf result Stop.WriteFault → HasRisen (W.faults out.old) (W.faults out.new) }
    ensures read_fault { IsErrOf result Stop.ReadFault → ⊥ }
    ensures started { IsErrOf result Stop.StartFault → ⊥ }
    ensures later { W.faults out.old ≤ W.faults out.new }
{
    match end {
        End::Done => write_summary(alloc, count, report, out),
        End::NotEmpty => write_last(out, lines, End::NotEmpty),
        // What a load plays is refused nowhere, so it ends in no other way.
        _ => Err(Stop::NoMemory),
    }
}

/// What stops a load whose run was stopped so.
fn loaded_stop(stop: Stop) -> Stop
    ensures { result ≡ loaded_stop stop }
{
    match stop {
        Stop::StartFault => Stop::StartFault,
        // It reads from memory, and writes to it.
        _ => Stop::NoMemory,
    }
}

/// Writes the summary of a load.
fn write_summary<W: Sink>(
    alloc: Global,
    count: u64,
    report: Report,
    out: &mut W,
) -> Result<End, Stop>
    ensures told { (trade : Trade) (sites : List Site) → IsTold report trade sites
        → LoadTells (result_shown result) statuses.Done (state_text count trade sites) (W.held out.old)
        (W.held out.new) }
    ensures write_fault { IsErrOf result Stop.WriteFault → HasRisen (W.faults out.old) (W.faults out.new) }
    ensures read_fault { IsErrOf result Stop.ReadFault → ⊥ }
    ensures started { IsErrOf result Stop.StartFault → ⊥ }
    ensures later { W.faults out.old ≤ W.faults out.new }
{
    let Report::Told(summary, alfa, beta) = report else {
        return Err(Stop::NoMemory);
    };
    let text = summary_text(alloc, count, summary, alfa, beta)?;
    write_last(out, &text, End::Done)
}

/// The eight lines of a summary.
#[tactic(auto, unfolding(pec_load_runs::specs::Loading::summary_text))]
fn summary_text(
    alloc: Global,
    count: u64,
    summary: Summary,
    alfa: u64,
    beta: u64,
) -> Result<Vec<u8>, NoMemory>
    ensures { IfOk result (λ text. text.items ≡ summary_text count summary alfa beta) }
{
    lines_are_put_in_their_order();
    let page = add_count(Page::new(alloc), b"load", count)?;
    let page = add_count(page, b"accepted", summary.accepted)?;
    let page = add_count(page, b"delivered", summary.delivered)?;
    let page = add_count(page, b"refused", summary.refused)?;
    let page = add_count(page, b"open", summary.unknown)?;
    let page = add_count(page, b"noticed", summary.noticed)?;
    let page = add_entries(page, b"alfa", alfa)?;
    let page = add_entries(page, b"beta", beta)?;
    Ok(page.text)
}

/// `WORD N`
fn add_count(page: Page, word: &[u8], count: u64) -> Result<Page, NoMemory>
    ensures { IfOk result (λ new. new.text.items ≡ line_after page.text.items (word.now ∷ decimal count ∷ [])) }
{
    let page = page.begin(word)?.number(count)?.end()?;
    Ok(page)
}

/// `entries NAME N`
fn add_entries(page: Page, name: &[u8], count: u64) -> Result<Page, NoMemory>
    ensures { IfOk result (λ new. new.text.items
        ≡ line_after page.text.items (codes "entries" ∷ name.now ∷ decimal count ∷ [])) }
{
    let page = page.begin(b"entries")?.word(name)?.number(count)?.end()?;
    Ok(page)
}
