//! Files taken, and listings.
use components::Walk;
use examples::POLLS;
use exchange::listing::listing;
use exchange::taking::{TakeFault, take};
use merger::analysis::Analysis;
use merger::answers::{Opened, Refusal};
use modelfile::faults::FaultNumbers;
use modelfile::reading;
use models::facts::Facts;
use std::test::Fail;

const LISTING: &[u8; 71] =
    b"states 5\ncomponents 5\nlabels 2\nrounds 2\nclasses 3\n0 0\n1 0\n2 1\n3 0\n4 2\n-";

// Tables for five states and six moves.
#[derive(Drop)]
struct Tables {
    labels: [Facts; 5],
    offsets: [u32; 6],
    targets: [u16; 6],
}

const BLANK: Tables = Tables {
    labels: [Facts::NONE; 5],
    offsets: [9; 6],
    targets: [9; 6],
};

fn taken(
    analysis: &mut Analysis,
    tables: &mut Tables,
    file: &[u8],
    scratch: usize,
) -> Result<Opened, TakeFault> {
    let mut walks = [Walk::BLANK; 5];
    let walks = &mut walks[0..scratch.min(5)];
    let mut lent = reading::Tables {
        labels: &mut tables.labels,
        offsets: &mut tables.offsets,
        targets: &mut tables.targets,
    };
    take(analysis, file, &mut lent, walks, &mut [0; 5])
}

#[test]
fn polls_are_listed(rt: HostRuntime) -> Result<(), Fail> {
    let mut analysis = Analysis::new();
    let mut text = [b'-'; 71];
    assert_eq!(rt; listing(&analysis, &mut text), Err(Refusal::NothingOpened));
    let found = Opened {
        states: 5,
        components: 5,
        labels: 2,
    };
    let mut tables = BLANK;
    assert_eq!(rt; taken(&mut analysis, &mut tables, &POLLS, 5), Ok(found));
    assert_eq!(rt; tables.offsets, [0, 1, 2, 3, 4, 6]);
    assert_eq!(rt; listing(&analysis, &mut text), Err(Refusal::NotSettled));
    let _ran = analysis.run(128)?;
    assert_eq!(rt;
        listing(&analysis, &mut text[0..69]),
        Err(Refusal::ShortBuffer)
    );
    assert_eq!(rt; text, [b'-'; 71]);
    assert_eq!(rt; listing(&analysis, &mut text), Ok(70));
    assert_eq!(rt; text, *LISTING);
    // just room enough
    assert_eq!(rt; listing(&analysis, &mut text[0..70]), Ok(70));
    Ok(())
}

// What a fault tells, where nothing but the tables may be altered, and whether these hold another model then.
fn fault(file: &[u8], scratch: usize) -> Option<(FaultNumbers, bool)> {
    let mut analysis = Analysis::new();
    let mut tables = BLANK;
    let why = taken(&mut analysis, &mut tables, file, scratch).err()?;
    let opened = analysis.class(0) != Err(Refusal::NothingOpened);
    (!opened).then_some((why.numbers(), tables.offsets != BLANK.offsets))
}

#[test]
fn faults_of_each_layer(rt: HostRuntime) {
    let cases: [(&[u8], usize, u8, u8, usize, u16, bool); 8] = [
        // a number
        (&[0x80, 0], 5, 1, 2, 0, 0, false),
        (&[2, 0], 5, 1, 1, 2, 0, false),
        // the file
        (&[2, 0, 0, 3], 5, 2, 3, 3, 0, false),
        (&[2, 0, 0, 2, 1, 1], 5, 2, 4, 5, 0, false),
        (&[6], 5, 2, 5, 0, 0, false),
        (&[1, 0, 1, 0, 9], 5, 2, 6, 4, 0, false),
        // the model, which the tables then hold
        (&[2, 0, 0, 1, 1, 0], 5, 3, 15, 1, 0, true),
        (&POLLS, 4, 3, 13, 0, 0, true),
    ];
    for (file, scratch, layer, cause, place, number, held) in cases {
        let told = FaultNumbers {
            layer,
            cause,
            place,
            number,
        };
        assert_eq!(rt; fault(file, scratch), Some((told, held)));
    }
}
