use crate::EffectBuf;
use cluster_model::Effect;
use std::test::Fail;

// A word, then a job that starts; after clearing, a silence alone.
#[test]
fn two_and_then_one(rt: HostRuntime) -> Result<(), Fail> {
    let mut seen = EffectBuf::new(rt.alloc())?;
    assert!(rt; seen.effects().is_empty());
    seen.push(Effect::Put { word: -1 });
    seen.push(Effect::Start { job: 3 });
    let two = [Effect::Put { word: -1 }, Effect::Start { job: 3 }];
    assert_eq!(rt; seen.effects(), two.as_slice());
    seen.clear();
    seen.push(Effect::Fell);
    assert_eq!(rt; seen.effects(), [Effect::Fell].as_slice());
    Ok(())
}
