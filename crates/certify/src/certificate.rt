//! A certificate of match: a transform with its settings, and what it gives for each patch, alone and in company.
use crate::kind::Kind;
use crate::patch::Patch;
use crate::sheet::Sheet;
use crate::words::Word;
use call::armed::Armed;
use call::mark::Mark;
use call::open::Open;
use engine::batch::MOST_PIXELS;
use engine::budget::Budget;
use engine::ending::Ending;
use number::kind::{NumberKind, Stop};
use std::io;
use transform::{Accepted, Record};

/// The endings in the order of their numbers, in which they are counted.
const ENDINGS: [Ending; 5] = [
    Ending::Done,
    Ending::Stopped(Stop::DivisionByZero),
    Ending::Stopped(Stop::OutOfRange),
    Ending::OutsideTable,
    Ending::Spent,
];

/// What the certificate is about.
#[derive(Clone, Copy)]
pub struct Certificate<'a> {
    pub transform: Accepted<'a>,
    pub name: &'a str,
    pub kind: Kind,
    pub budget: Budget,
}

impl Certificate<'_> {
    /// Runs the patches one by one and prints what each gives; then runs them as one picture and prints what differs.
    pub fn print<K: NumberKind>(&self, rt: &HostRuntime, patches: &[Patch]) -> anyhow::Result<()> {
        self.print_heading::<K>(rt)?;
        self.print_transform(rt)?;
        self.print_settings(rt)?;
        let mut alone = Sheet::new(rt.alloc(), patches)?;
        let mut together = Sheet::new(rt.alloc(), patches)?;
        let mut call = self.call();
        for patch in 0..patches.len() {
            let _ = alone.run::<K>(&mut call, patch, 1)?;
        }
        self.print_patches(rt, patches, &alone)?;
        self.run_together::<K>(rt, &mut together)?;
        print_company(rt, &alone, &together)?;
        Ok(())
    }

    // Serves the picture in batches, and prints the rounds of each by its first patch.
    fn run_together<K: NumberKind>(
        &self,
        rt: &impl Print,
        sheet: &mut Sheet,
    ) -> anyhow::Result<()> {
        let mut call = self.call();
        for first in (0..sheet.marks().len()).step_by(MOST_PIXELS) {
            let rounds = sheet.run::<K>(&mut call, first, MOST_PIXELS)?;
            println!(rt; "company    batch from patch {first}: {rounds} rounds")?;
        }
        Ok(())
    }

    // A call with no uniform set.
    fn call(&self) -> Armed<'_> {
        Open::new(self.transform, self.budget).arm()
    }

    fn print_heading<K: NumberKind>(&self, rt: &impl Print) -> io::Result<()> {
        let name = self.name;
        let kind = self.kind;
        let number = K::NUMBER;
        let steps = self.budget.steps();
        println!(rt; "CERTIFICATE OF MATCH")?;
        println!(rt; "transform  {name}")?;
        println!(rt; "kind       {kind} ({number})")?;
        println!(rt; "budget     {steps} steps")
    }

    fn print_transform(&self, rt: &impl Print) -> io::Result<()> {
        let words = self.transform.table_len();
        println!(rt; "rows       type role channel word")?;
        for (i, row) in self.transform.rows().iter().enumerate() {
            let (holds, role, channel, word) = (row.holds, row.role, row.channel, Word(row.word));
            println!(rt; "{i:>9}  {holds:>4} {role:>4} {channel:>7} {word}")?;
        }
        println!(rt; "records    kind to  a  b  word      next")?;
        for (place, record) in self.transform.records().iter().enumerate() {
            print_record(rt, place, *record)?;
        }
        println!(rt; "table      {words} words")
    }

    // The uniforms, all at their defaults.
    fn print_settings(&self, rt: &impl Print) -> io::Result<()> {
        let rows = self.transform.rows();
        for (i, row) in rows.iter().enumerate() {
            if row.is_uniform() {
                let word = Word(row.word);
                println!(rt; "setting    row {i} {word}")?;
            }
        }
        if rows.iter().any(|row| row.is_uniform()) {
            Ok(())
        } else {
            println!(rt; "settings   none: the transform has no uniform")
        }
    }

    fn print_patches(&self, rt: &impl Print, patches: &[Patch], sheet: &Sheet) -> io::Result<()> {
        println!(rt; "patch      input      out        ending               place  steps")?;
        for (i, (patch, mark)) in patches.iter().zip(sheet.marks()).enumerate() {
            print_patch(rt, patch)?;
            self.print_out_words(rt, sheet, i, *mark)?;
            print_mark(rt, *mark)?;
        }
        print_counts(rt, sheet.marks())
    }

    // The out words of a patch, or a dash for each where it is not done.
    fn print_out_words(
        &self,
        rt: &impl Print,
        sheet: &Sheet,
        index: usize,
        mark: Mark,
    ) -> io::Result<()> {
        for row in self.transform.rows() {
            if row.is_out() {
                match (mark.ending, sheet.word(index, usize::from(row.channel))) {
                    (Ending::Done, Some(word)) => {
                        let word = Word(word);
                        print!(rt; "  {word}")?;
                    }
                    _ => print!(rt; "  -        ")?,
                }
            }
        }
        Ok(())
    }
}

fn print_record(rt: &impl Print, place: usize, record: Record) -> io::Result<()> {
    let (kind, to, a, b) = (record.kind, record.to, record.a, record.b);
    let (word, next) = (Word(record.word), record.next);
    println!(rt; "{place:>9}  {kind:>4} {to:>2} {a:>2} {b:>2}  {word} {next:>4}")
}

// How many patches have in company another mark or another out word than alone.
fn print_company(rt: &impl Print, alone: &Sheet, together: &Sheet) -> io::Result<()> {
    let count = alone.marks().len();
    let differ = (0..count).filter(|&i| !alone.agrees(together, i)).count();
    println!(rt; "company    {differ} of {count} patches differ from their run alone")?;
    println!(rt; "")
}

fn print_patch(rt: &impl Print, patch: &Patch) -> io::Result<()> {
    let name = patch.name;
    print!(rt; "{name:<10}")?;
    for word in patch.inputs {
        let word = Word(word);
        print!(rt; " {word}")?;
    }
    Ok(())
}

fn print_mark(rt: &impl Print, mark: Mark) -> io::Result<()> {
    let Mark {
        ending,
        place,
        steps,
    } = mark;
    let number = ending.number();
    println!(rt; "  {number} {ending:<17}  {place:>5}  {steps:>5}")
}

// How many patches ended how.
fn print_counts(rt: &impl Print, marks: &[Mark]) -> io::Result<()> {
    print!(rt; "ended     ")?;
    for (i, ending) in ENDINGS.iter().enumerate() {
        let count = marks.iter().filter(|mark| mark.ending == *ending).count();
        let comma = if i == 0 { "" } else { "," };
        print!(rt; "{comma} {count} {ending}")?;
    }
    println!(rt; "")
}
