//! What is displayed. Each contract of a `fmt` speaks of `Ok` alone, so one that answers an error meets it.
use queue::Full;
use refusal::{Fault, Layer};
use std::test::Fail;

#[test]
fn layers_refusals_and_a_full_queue(rt: HostRuntime) -> Result<(), Fail> {
    for (layer, word) in [
        (Layer::File, "file"),
        (Layer::Set, "set"),
        (Layer::Placement, "placement"),
        (Layer::Opening, "opening"),
        (Layer::Running, "running"),
        (Layer::Calendar, "calendar"),
        (Layer::Agenda, "agenda"),
    ] {
        let text = layer.to_string(rt.alloc())?;
        assert_eq!(rt; text.as_str(), word);
        let text = Fault::Full.at(layer, u64::MAX).to_string(rt.alloc())?;
        let words = format!(in rt.alloc(); "refused 7 {word} 18446744073709551615")?;
        assert_eq!(rt; text.as_str(), words.as_str());
    }
    let text = Full.to_string(rt.alloc())?;
    assert_eq!(rt; text.as_str(), "every slot is in use");
    Ok(())
}
