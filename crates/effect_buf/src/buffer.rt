//! A buffer of effects.
ghost use Rattle.std.specs.Prelude.{◌≡◌, ◌<◌, [], ◌∷◌, ◌++◌, length, IfOk};

use cluster_model::Effect;
use mars_base::Memory;
use std::alloc::Global;
use std::marker::Model;

/// The effects of one event. It has room for 1,028, those of one tick: at most one frame taken or missed, one
/// word put, one job started or skipped, one ended or broken, and 1,024 outputs. Contracts see it as the list
/// of its effects.
#[derive(Drop)]
pub struct EffectBuf {
    // All its room; the first `count` are its effects.
    effects: Vec<Effect>,
    count: usize,
}

impl Model for EffectBuf {
    ghost use Rattle.std.specs.Prelude.{◌≡◌, ◌≤◌, List, length, take};
    ghost use Rattle.cluster_model.specs.declared.effect.Effect.{Effect};

    ghost Value = { List Effect };

    ghost view = { λ b. take b.count b.effects.items };

    ghost invariant = { λ b. (b.count ≤ length b.effects.items) × (length b.effects.items ≡ 1028) };
}

impl EffectBuf {
    /// A buffer with no effects. No other call takes memory.
    pub fn new(alloc: Global) -> Result<EffectBuf, Memory>
        ensures { IfOk result (λ b. b ≡ []) }
    {
        Ok(EffectBuf {
            effects: vec![in alloc; Effect::Fell; 1028]?,
            count: 0,
        })
    }

    /// Adds an effect behind the others.
    pub fn push(&mut self, effect: Effect)
        requires { length self.old < 1028 }
        ensures { self.new ≡ self.old ++ effect ∷ [] }
    {
        self.effects[self.count] = effect;
        self.count += 1;
    }

    /// Drops all effects.
    pub fn clear(&mut self)
        ensures { self.new ≡ [] }
    {
        self.count = 0;
    }

    /// The effects, in their order.
    pub fn effects(&self) -> &[Effect]
        ensures { result.now ≡ self.now }
    {
        &self.effects[..self.count]
    }
}
