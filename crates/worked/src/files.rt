//! Set files that are written, and lent memory that is too small.
use printout::print_file;
use refusal::{Fault, Layer};
use set::figures::Figures;
use std::test::Fail;

/// Two models on one worker.
const SMALL: Figures<'static> = Figures {
    workers: 1,
    group_size: 1,
    grain: 1000,
    costs: &[200, 100],
    periods: &[1000, 500],
};

#[test]
fn written_and_read_back(rt: HostRuntime) -> Result<(), Fail> {
    let mut buffer = [7; 33];
    assert_eq!(rt; setfile::write(&SMALL, &mut buffer)?, 32);
    let file = [
        2, 0, 0, 0, 1, 0, 0, 0, 1, 0, 0, 0, 232, 3, 0, 0, 200, 0, 0, 0, 100, 0, 0, 0, 232, 3, 0, 0,
        244, 1, 0, 0, 7,
    ];
    assert_eq!(rt; buffer, file);
    let set = setfile::read(&buffer[..32])?;
    assert_eq!(rt; set.weight(1), Some(200));
    assert_eq!(rt; set.weight(2), Some(200));
    Ok(())
}

#[test]
fn memory_that_is_too_small(rt: HostRuntime) {
    let mut buffer = [7; 31];
    assert_eq!(rt;
        setfile::write(&SMALL, &mut buffer).err(),
        Some(Fault::Short.at(Layer::File, 31))
    );
    assert_eq!(rt; buffer, [7; 31]);
    let mut text = [7; 16383];
    // the place as callers see it
    assert_eq!(rt;
        print_file(&[], &mut text).err(),
        Some(Fault::Memory.at(Layer::Running, 3))
    );
    assert_eq!(rt; text[0], 7);
    assert_eq!(rt; text[16382], 7);
}
