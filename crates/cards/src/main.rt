// The cards of document 01, its five mistakes and the cards of document 02, run on the code. They come
// from standard input, the file stdin, and what is expected, the file stdout, was written from the
// documents; outside/tools has the format. Each line is a card's name, then of a step the answer, the rule
// of the EPTP, the dropped count, the length, the context's nine numbers and the new buffer, which held ee in every byte;
// of a lookup the answer, the start, the length and the part; of a reason its number, its answer and its rule; of the
// converter the answer, the length and the new buffer; of a step beside a tally what a step has, with the counts before
// the new buffer; of a fresh count the answer and the counts. The counts are the thirty by kind and span, those of the
// four PCIDs that the card names, and the sum of all 4,096.
#![tactic(auto)]

ghost use Rattle.std.specs.Prelude.{◌+◌, ◌≡◌, ◌<◌, ◌≤◌, IfSome, length};
ghost use Rattle.std.specs.Iterator.{at_most};

use flat_contexts::FlatContext;
use flat_steps::{FlatKinds, FlatStep};
use model::{Address, Context};
use numbers::number;
use std::io;
use tally_rows::KindCounts;

// A card: its name, what it runs, a context, a table, and what else that takes.
#[derive(Clone, Copy)]
struct Card<'a> {
    name: &'a [u8],
    mode: u8,
    context: FlatContext,
    table: &'a [u8],
    extra: &'a [u8],
}

// The context of a card: nine numbers.
fn context(s: &[u8]) -> FlatContext
    requires { 72 ≤ length s.now }
{
    FlatContext {
        capability: number::<8>(s, 0),
        width: number::<8>(s, 8),
        linear_width: number::<8>(s, 16),
        pcid: number::<8>(s, 24),
        cpl: number::<8>(s, 32),
        place: number::<8>(s, 40),
        vpid: number::<8>(s, 48),
        ept: number::<8>(s, 56),
        ep4ta: number::<8>(s, 64),
    }
}

// The card at the front, and what follows it; `None` where no whole card is left.
fn split_card(s: &[u8]) -> Option<(Card<'_>, &[u8])>
    ensures { IfSome result (λ r. length r.1.now < length s.now) }
{
    let (head, rest) = s.split_at_checked(78)?;
    let (name, rest) = rest.split_at_checked(number::<1>(head, 0) as usize)?;
    let (table, rest) = rest.split_at_checked(number::<2>(head, 1) as usize)?;
    let (extra, rest) = rest.split_at_checked(number::<2>(head, 76) as usize)?;
    let card = Card {
        name,
        mode: head[3],
        context: context(&head[4..]),
        table,
        extra,
    };
    Some((card, rest))
}

// The cards of the input, as far as they are whole.
#[derive(Drop)]
struct Cards<'a>(&'a [u8]);

impl<'a> Iterator for Cards<'a> {
    type Item = Card<'a>;

    ghost remaining = { λ s. at_most (length s.0.now) };

    fn next(&mut self) -> Option<Card<'a>> {
        let (card, rest) = split_card(self.0)?;
        self.0 = rest;
        Some(card)
    }
}

fn write_hex(rt: &impl Print, bytes: &[u8]) -> io::Result<()> {
    for byte in bytes {
        print!(rt; "{byte:02x}")?;
    }
    Ok(())
}

// Numbers, each with a space after it.
fn write_numbers(rt: &impl Print, numbers: &[u64]) -> io::Result<()> {
    for n in numbers {
        print!(rt; "{n} ")?;
    }
    Ok(())
}

// A context as its nine numbers.
fn write_context(rt: &impl Print, c: FlatContext) -> io::Result<()> {
    write_numbers(
        rt,
        &[
            c.capability,
            c.width,
            c.linear_width,
            c.pcid,
            c.cpl,
            c.place,
            c.vpid,
            c.ept,
            c.ep4ta,
        ],
    )
}

// What a step reports: the answer, the rule of the EPTP, the dropped count, the length, and the context after it.
fn write_step(rt: &impl Print, s: FlatStep) -> io::Result<()> {
    write_numbers(rt, &[s.answer, s.rule, s.dropped as u64, s.length as u64])?;
    write_context(rt, s.context)
}

// One step into a buffer of 64 bytes.
fn step(rt: &impl Print, card: Card<'_>) -> io::Result<()> {
    let mut new = [238u8; 64];
    write_step(
        rt,
        skuldrefn::skuldrefn_plain_step(card.context, card.table, card.extra, &mut new),
    )?;
    write_hex(rt, &new)
}

// One lookup: where the part starts and how long it is, of the functions for C, and the part, of the crate below them.
fn look_up(rt: &impl Print, card: Card<'_>, address: Address, k: u64) -> io::Result<()> {
    let found = match address {
        Address::Linear(a) => skuldrefn::skuldrefn_lookup_linear(card.context, card.table, a, k),
        Address::GuestPhysical(a) => {
            skuldrefn::skuldrefn_lookup_guest_physical(card.context, card.table, a, k)
        }
    };
    write_numbers(rt, &[found.answer, found.start as u64, found.length as u64])?;
    write_hex(
        rt,
        lookups::look_up(Context::from(card.context), address, card.table, k),
    )
}

// Why an event drops the one record of a table or leaves it.
fn explain(rt: &impl Print, card: Card<'_>) -> io::Result<()> {
    let why = skuldrefn::skuldrefn_explain(card.context, card.table, card.extra);
    write_numbers(rt, &[why.reason, why.answer, why.rule])
}

// The converter into a buffer of 64 bytes.
fn widen(rt: &impl Print, card: Card<'_>) -> io::Result<()> {
    let mut new = [238u8; 64];
    let w = skuldrefn::skuldrefn_widen(card.table, &mut new);
    write_numbers(rt, &[w.answer, w.length as u64])?;
    write_hex(rt, &new)
}

// A count: the two bytes at a position.
fn count(s: &[u8], at: usize) -> u16
    requires { at + 2 ≤ length s.now }
{
    number::<2>(s, at) as u16
}

// A PCID: the two bytes at the front, cut to twelve bits.
fn pcid(s: &[u8]) -> usize
    requires { 2 ≤ length s.now }
    ensures { result < 4096 }
{
    (number::<2>(s, 0) % model::PCIDS) as usize
}

// The five counts of a row, from a position on.
fn row(s: &[u8], at: usize) -> KindCounts
    requires { at + 10 ≤ length s.now }
{
    KindCounts {
        spans: [
            count(s, at),
            count(s, at + 2),
            count(s, at + 4),
            count(s, at + 6),
            count(s, at + 8),
        ],
    }
}

// The counts of a card by kind and span: six rows.
fn rows(s: &[u8]) -> FlatKinds
    requires { 60 ≤ length s.now }
{
    FlatKinds {
        rows: [
            row(s, 0),
            row(s, 10),
            row(s, 20),
            row(s, 30),
            row(s, 40),
            row(s, 50),
        ],
    }
}

fn write_rows(rt: &impl Print, kinds: FlatKinds) -> io::Result<()> {
    for row in kinds.rows {
        for n in row.spans {
            print!(rt; "{n} ")?;
        }
    }
    Ok(())
}

// The sum of counts.
fn sum_of(counts: &[u16]) -> u64
    requires { length counts.now < 4097 }
{
    counts.iter().map(|&n| u64::from(n)).sum()
}

// The counts of the PCIDs that the card names, each in the first two of so many bytes, and the sum of all counts.
fn write_pcids(
    rt: &impl Print,
    pcids: &[u16; model::PCID_COUNTS],
    named: &[u8],
    width: usize,
) -> io::Result<()>
    requires { 2 ≤ width }
{
    for entry in named.chunks_exact(width) {
        let n = pcids[pcid(entry)];
        print!(rt; "{n} ")?;
    }
    write_numbers(rt, &[sum_of(pcids)])
}

// One step beside a tally, into a buffer of 64 bytes. The card has the thirty counts by kind and span, four PCIDs with
// the count of each, and the event; every other PCID's count is 0.
fn counted_step(rt: &impl Print, card: Card<'_>) -> io::Result<()> {
    let Some((tally, event)) = card.extra.split_at_checked(76) else {
        return Ok(());
    };
    let mut pcids = [0u16; model::PCID_COUNTS];
    for entry in tally[60..].chunks_exact(4) {
        pcids[pcid(entry)] = count(entry, 2);
    }
    let mut new = [238u8; 64];
    let counted = skuldrefn::skuldrefn_step(
        card.context,
        rows(tally),
        &mut pcids,
        card.table,
        event,
        &mut new,
    );
    write_step(rt, counted.step)?;
    write_rows(rt, counted.kinds)?;
    write_pcids(rt, &pcids, &tally[60..], 4)?;
    write_hex(rt, &new)
}

// A fresh count. The card has four PCIDs, and of how many PCIDs the counts are lent, from the first on, at most 4,096;
// each of them is 7 before.
fn fresh_count(rt: &impl Print, card: Card<'_>) -> io::Result<()> {
    if card.extra.len() < 10 {
        return Ok(());
    }
    let lent = number::<2>(card.extra, 8) as usize;
    if model::PCID_COUNTS < lent {
        return Ok(());
    }
    let mut pcids = [7u16; model::PCID_COUNTS];
    let counted = skuldrefn::skuldrefn_count(
        card.context.linear_width,
        card.table,
        &mut pcids[..lent],
    );
    write_numbers(rt, &[counted.answer])?;
    write_rows(rt, counted.kinds)?;
    write_pcids(rt, &pcids, &card.extra[..8], 2)
}

// Runs a card, a lookup of a linear address in mode 1 and of a guest-physical one in any mode that is not named here.
fn run_card(rt: &impl Print, card: Card<'_>) -> io::Result<()> {
    match card.mode {
        0 => step(rt, card),
        3 => explain(rt, card),
        4 => widen(rt, card),
        5 => counted_step(rt, card),
        6 => fresh_count(rt, card),
        mode => {
            if card.extra.len() < 16 {
                return Ok(());
            }
            let address = number::<8>(card.extra, 0);
            let address = match mode {
                1 => Address::Linear(address),
                _ => Address::GuestPhysical(address),
            };
            look_up(rt, card, address, number::<8>(card.extra, 8))
        }
    }
}

fn run(rt: &impl Print, s: &[u8]) -> io::Result<()> {
    for card in Cards(s) {
        rt.write_all(card.name)?;
        print!(rt; ": ")?;
        run_card(rt, card)?;
        println!(rt)?;
    }
    Ok(())
}

// Room for all cards. The contract has only its length, so that no proof goes through the zeros.
fn room() -> [u8; 524288]
    ensures { 524288 ≡ length result }
{
    [0; 524288]
}

fn main(rt: HostRuntime) -> io::Result<()> {
    let mut cards = room();
    let size = inputs::read_to_fill(&mut rt.stdin(), &mut cards)?;
    run(&rt, &cards[..size])
}
