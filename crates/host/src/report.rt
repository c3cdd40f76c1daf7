ghost use Rattle.std.specs.Prelude.{◌≡◌, Some, None, OnOk};
ghost use Rattle.std.specs.List.{zip, count_by};
ghost use Rattle.desk.specs.Desks.{board_of};
ghost use Rattle.host.specs.Works.{emptied, WorksOn};

use crate::book::{self, Entry, clear, read_book};
use crate::lot::{HEADING, LOTS_ONE, LOTS_TWO};
use crate::lots::{Work, work_lots};
use crate::makes::Makes;
use crate::panel::Panel;
use board::board::Board;
use board::board::compare::compare;
use board::collect::EventRecord;
use desk::desk::Desk;
use ring::ring::Ring;
use stage::Stage;

fn show_work(rt: &HostRuntime, gate: u8, work: &Work) -> anyhow::Result<()> {
    println!(rt; "gate {gate}   {HEADING}")?;
    for outcome in work.outcomes.iter() {
        println!(rt; "      {outcome}")?;
    }
    Ok(())
}

fn show_panel(rt: &HostRuntime, panel: &Panel) -> anyhow::Result<()> {
    print!(rt; "panel    events read after each lot:")?;
    for count in panel.counts.iter() {
        print!(rt; " {count}")?;
    }
    println!(rt;)?;
    Ok(())
}

// Shows what the batch book reads of a list, and then removes it.
fn show_book(rt: &HostRuntime, list: &mut Ring<'_, EventRecord>) -> anyhow::Result<()>
    ensures { OnOk result (list.new ≡ emptied list.old) }
{
    let book = read_book(rt.alloc(), list)?;
    println!(rt; "{}", book::HEADING)?;
    for record in book.iter() {
        rt.println(Entry(*record))?;
    }
    clear(list);
    Ok(())
}

// How many answers of two lists are equal, place by place.
fn count_alike<T: PartialEq>(a: &[T], b: &[T]) -> usize
    ensures { result ≡ count_by (λ p. T.PartialEq.eq p.0 p.1) (zip a.now b.now) }
{
    a.iter().zip(b).filter(|(x, y)| **x == **y).count()
}

// What one gate has in common on two boards.
fn show_comparison<S: Stage + Drop, R: Stage + Drop>(
    rt: &HostRuntime,
    a: &Board<S>,
    b: &Board<R>,
    gate: u8,
) -> anyhow::Result<()> {
    if let Some(found) = compare(a, b, gate) {
        let records = if found.same { "equal" } else { "not equal" };
        let (first, second) = found.apart;
        println!(rt; "gate {gate}: records {records}, phases {first} and {second} apart")?;
    }
    Ok(())
}

/// Works lots through both gates of board a, then those of gate 1 alone on board b, and compares the boards. What the boards list is read
/// by the panel and the batch book of each, and removed.
pub fn show_lots<S: Stage + Drop, R: Stage + Drop>(
    rt: &HostRuntime,
    makes: Makes,
    a: &mut Desk<S>,
    b: &mut Desk<R>,
    list_a: &mut Ring<'_, EventRecord>,
    list_b: &mut Ring<'_, EventRecord>,
) -> anyhow::Result<()>
    ensures { OnOk result
        (WorksOn S.Stage LOTS_ONE (Some LOTS_TWO) (board_of a.old) list_a.old (board_of a.new)
        list_a.new ×
        WorksOn R.Stage LOTS_ONE None (board_of b.old) list_b.old (board_of b.new) list_b.new) }
{
    let first = work_lots(rt.alloc(), a, list_a, &LOTS_ONE, Some(&LOTS_TWO))?;
    let second = work_lots(rt.alloc(), b, list_b, &LOTS_ONE, None)?;
    let (make_a, make_b) = (makes.a, makes.b);
    println!(rt; "board a, over {make_a}: lots through both gates")?;
    show_work(rt, 1, &first.one)?;
    show_work(rt, 2, &first.two)?;
    show_panel(rt, &first.panel)?;
    show_book(rt, list_a)?;
    println!(rt; "board b, over {make_b}: the same lots through gate 1, gate 2 idle")?;
    show_work(rt, 1, &second.one)?;
    show_panel(rt, &second.panel)?;
    show_book(rt, list_b)?;
    println!(rt; "the two boards compared")?;
    let count = first.one.answers.len();
    let same = count_alike(first.one.answers.as_slice(), second.one.answers.as_slice());
    println!(rt; "gate 1: {same} of {count} answers alike")?;
    show_comparison(rt, a.board(), b.board(), 1)?;
    show_comparison(rt, a.board(), b.board(), 2)
}
