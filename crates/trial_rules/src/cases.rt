//! The other cases of the rules: every small table, every small list of steps and every short file, held to the rules as
//! they were read by hand.
use crate::reader::{Problem, Room, read};
use crate::rules::{Told, check_refusal, open_refusal, rows};
use checker::check;
use checker::steps::Step;
use components::Walk;
use exchange::taking::take;
use merger::analysis::Analysis;
use modelfile::faults::FaultNumbers;
use modelfile::reading::{self, load};
use models::Model;
use models::facts::Facts;
use models::listed::Listed;
use second::counts::Count;
use second::oracle::Plain;
use second::tables::Tables;
use std::alloc::{AllocError, Global};
use std::fmt;
use survey::gaps::Numbers;
use writing::saving::save;

/// What has been tried so far, how much of it was refused, and how often the rules said otherwise.
#[derive(Clone, Copy, Default)]
pub struct Cases {
    tried: Count,
    refused: Count,
    differences: Count,
}

impl fmt::Display for Cases {
    fn fmt<W: fmt::Write>(&self, f: &mut fmt::Formatter<W>) -> fmt::Result {
        write!(
            f,
            "tried {} refused {} differences {}",
            self.tried, self.refused, self.differences
        )
    }
}

impl<Place: Into<usize>> From<Numbers<Place>> for Told {
    fn from(told: Numbers<Place>) -> Told {
        Told {
            cause: told.cause,
            place: told.place.into(),
            number: usize::from(told.number),
        }
    }
}

// The tables that a file is loaded into.
#[derive(Clone, Copy, PartialEq, Eq)]
struct Small {
    labels: [Facts; 3],
    offsets: [u32; 3],
    targets: [u16; 2],
}

impl Small {
    const BLANK: Small = Small {
        labels: [Facts::NONE; 3],
        offsets: [9; 3],
        targets: [9; 2],
    };

    // Whether they hold these tables at their fronts.
    fn hold(&self, tables: &Tables) -> bool {
        self.labels.starts_with(&tables.labels)
            && self.offsets.starts_with(&tables.offsets)
            && self.targets.starts_with(&tables.targets)
    }
}

impl Cases {
    fn count(&mut self, refused: bool) {
        self.tried.add_one();
        self.refused.add_if(refused);
    }

    /// A listed model by any tables: its questions, and what open refuses with so much scratch.
    pub fn tables(
        &mut self,
        heap: Global,
        labels: usize,
        offsets: &[u32],
        targets: &[u16],
    ) -> Result<(), AllocError> {
        let facts = vec![in heap; Facts::NONE; labels]?;
        let model = Listed {
            labels: facts.as_slice(),
            offsets,
            targets,
        };
        let wanted = rows(heap, labels, offsets, targets)?;
        self.questions(&model, &wanted);
        // each of no, one and two walk records with each of no, one and two state numbers
        for pair in 0..9 {
            self.opened(&model, &wanted, pair / 3, pair % 3);
        }
        Ok(())
    }

    // What a model says of its rows.
    fn questions<M: Model>(&mut self, model: &M, rows: &[Vec<u16>]) {
        self.differences
            .add_if(usize::from(model.size()) != rows.len());
        for (s, row) in (0u16..).zip(rows) {
            let told = (0..model.degree(s)).map(|k| model.target(s, k));
            let meant = row.iter().map(|target| Some(*target));
            self.differences.add_if(!told.eq(meant));
        }
    }

    // What open says of a model with so many walk records and state numbers.
    fn opened<M: Model>(&mut self, model: &M, rows: &[Vec<u16>], walks: usize, states: usize) {
        let (mut records, mut numbers) = ([Walk::BLANK; 2], [7; 2]);
        let (Some(lent), Some(scratch)) = (records.get_mut(0..walks), numbers.get_mut(0..states))
        else {
            return self.differences.add_one();
        };
        let opened = Analysis::new().open(model, lent, scratch);
        let wanted = open_refusal(rows, walks, states);
        self.count(wanted.is_some());
        let told = opened.err().map(|why| Told::from(why.numbers()));
        self.differences.add_if(told != wanted);
        self.differences
            .add_if(wanted.is_some() && numbers != [7; 2]);
    }

    /// A list of steps, on a model of two states, with so many marks.
    pub fn steps<M: Model>(&mut self, model: &M, steps: &[Step], marks: usize) {
        let mut table = [7; 2];
        let Some(lent) = table.get_mut(0..marks) else {
            return self.differences.add_one();
        };
        let checked = check(model, steps, lent);
        let wanted = check_refusal(steps, 2, 64, marks);
        self.count(wanted.is_some());
        let told = checked.err().map(|why| Told::from(why.numbers()));
        self.differences.add_if(told != wanted);
        self.differences.add_if(if wanted.is_some() {
            table != [7; 2]
        } else {
            table.contains(&7)
        });
    }

    /// A file: loaded, and saved again where it is accepted.
    pub fn file(&mut self, heap: Global, bytes: &[u8]) -> Result<(), AllocError> {
        let room = Room {
            labels: 3,
            offsets: 3,
            targets: 2,
        };
        match read(heap, bytes, room) {
            Ok(model) => self.accepted(heap, bytes, &model),
            Err(Problem::Fault(told)) => {
                self.faulty(bytes, told);
                Ok(())
            }
            Err(Problem::Memory(error)) => Err(error),
        }
    }

    fn faulty(&mut self, bytes: &[u8], wanted: Told) {
        self.count(true);
        let mut small = Small::BLANK;
        let mut lent = reading::Tables {
            labels: &mut small.labels,
            offsets: &mut small.offsets,
            targets: &mut small.targets,
        };
        let fault = load(bytes, &mut lent).err();
        let told = FaultNumbers {
            layer: if wanted.cause < 3 { 1 } else { 2 },
            cause: wanted.cause,
            place: wanted.place,
            number: 0,
        };
        self.differences
            .add_if(fault.map(|why| why.numbers()) != Some(told));
        self.differences.add_if(small != Small::BLANK);
    }

    fn accepted(&mut self, heap: Global, bytes: &[u8], model: &Plain) -> Result<(), AllocError> {
        self.count(false);
        let tables = Tables::of(heap, model)?;
        let mut small = Small::BLANK;
        let mut lent = reading::Tables {
            labels: &mut small.labels,
            offsets: &mut small.offsets,
            targets: &mut small.targets,
        };
        let loaded = take(
            &mut Analysis::new(),
            bytes,
            &mut lent,
            &mut [Walk::BLANK; 3],
            &mut [0; 3],
        );
        let rows = rows(heap, tables.labels.len(), &tables.offsets, &tables.targets)?;
        let refusal = open_refusal(&rows, 3, 3);
        self.differences
            .add_if(loaded.is_err() != refusal.is_some());
        self.differences.add_if(!small.hold(&tables));
        let mut copy = [0xEE; 8];
        let len = save(&tables.listed(), &mut copy).unwrap_or(0);
        self.differences.add_if(copy.get(0..len) != Some(bytes));
        Ok(())
    }
}
