//! Who chooses the bank that does the next command of a wave.

ghost use Rattle.std.specs.Prelude.{◌≡◌, ℕ, ◌%◌, ◌<◌};
ghost use Rattle.wave_model.specs.Schedule.{Picker as Rule, PicksLive, Ahead, Turning, Drawing};
ghost use Rattle.uprog_ctl.specs.Orders.{turn_of};

use rand_xoshiro::SplitMix64;
use rand_xoshiro::rand_core::SeedableRng;
use rand_xoshiro::rand_core::utils::NextWord;

/// Chooses among the banks that have commands left, by a state of its own.
pub trait Picker {
    /// What its states are.
    ghost State: { Type 0 };
    /// The state that it is in.
    ghost state: { Self → State };
    /// What it chooses in a state, and the state that it leaves.
    ghost rule: { Rule State };

    /// Chooses one of so many live banks, counted upwards from 0.
    fn pick(&mut self, live: u16) -> u16
        requires { 0 < live }
        ensures choice { result ≡ rule.choice (state self.old) live }
        ensures next { state self.new ≡ rule.next (state self.old) live };

    /// Its choice is one of the live banks.
    ghost picks_live: { PicksLive rule };
}

/// Which of so many live banks a number chooses: its remainder. The numbers of banks that are
/// powers of two stand by themselves, since a division takes as long as a command on a row of one
/// word.
#[inline(always)]
fn choice_of(number: u64, live: u16) -> u16
    requires { 0 < live }
    ensures { result ≡ number % live }
{
    let choice = match live {
        1 => 0,
        2 => number % 2,
        4 => number % 4,
        8 => number % 8,
        16 => number % 16,
        _ => number % u64::from(live),
    };
    choice as u16
}

/// Always chooses the first live bank. Its state is nothing.
#[derive(Clone, Copy, PartialEq, Eq)]
pub struct Forward;

impl Forward {
    /// The only one.
    pub fn new() -> Forward {
        Forward
    }
}

impl Picker for Forward {
    ghost use Rattle.std.specs.Prelude.{◌<◌};
    ghost use Rattle.std.proofs.Math.Nat.{mod-lt};
    ghost use Rattle.rand_xoshiro.specs.SplitMix64.{mix_u64};
    ghost use Rattle.wave_model.specs.Schedule.{Turn, in_turn, Ahead, Turning, Drawing};

    ghost State = { Turn };

    ghost state = { λ s. Ahead };

    ghost rule = { in_turn };

    #[inline(always)]
    fn pick(&mut self, live: u16) -> u16 {
        0
    }

    ghost picks_live = { elim [
      | Ahead ↦ λ count h. h
      | Turning t ↦ λ count h. mod-lt t h
      | Drawing s ↦ λ count h. mod-lt (mix_u64 s).0 h
    ] };
}

/// Chooses the live banks one after another, by a count of its picks: the state is the count,
/// from 0, and 0 again after 65,535.
#[derive(Clone, Copy, PartialEq, Eq)]
pub struct Turns {
    count: u16,
}

impl Turns {
    /// At the count 0.
    pub fn new() -> Turns
        ensures { ⟦<Turns as Picker>⟧.state result ≡ Turning 0 }
    {
        Turns { count: 0 }
    }
}

impl Picker for Turns {
    ghost use Rattle.std.specs.Prelude.{◌<◌};
    ghost use Rattle.std.proofs.Math.Nat.{mod-lt};
    ghost use Rattle.rand_xoshiro.specs.SplitMix64.{mix_u64};
    ghost use Rattle.wave_model.specs.Schedule.{Turn, in_turn, Ahead, Turning, Drawing};

    ghost State = { Turn };

    ghost state = { λ s. Turning s.count };

    ghost rule = { in_turn };

    #[inline(always)]
    fn pick(&mut self, live: u16) -> u16 {
        let choice = choice_of(u64::from(self.count), live);
        self.count = self.count.wrapping_add(1);
        choice
    }

    ghost picks_live = { elim [
      | Ahead ↦ λ count h. h
      | Turning t ↦ λ count h. mod-lt t h
      | Drawing s ↦ λ count h. mod-lt (mix_u64 s).0 h
    ] };
}

/// Chooses by the words of the generator SplitMix64: the state is the generator's.
#[derive(Drop)]
pub struct Seeded {
    words: SplitMix64,
}

impl Seeded {
    /// With the generator that the seed's eight bytes make, the lowest first.
    pub fn new(seed: u64) -> Seeded
        ensures { ⟦<Seeded as Picker>⟧.state result ≡ Drawing seed }
    {
        Seeded {
            words: SplitMix64::seed_from_u64(seed),
        }
    }
}

impl Picker for Seeded {
    ghost use Rattle.std.specs.Prelude.{◌<◌};
    ghost use Rattle.std.proofs.Math.Nat.{mod-lt};
    ghost use Rattle.rand_xoshiro.specs.SplitMix64.{mix_u64};
    ghost use Rattle.wave_model.specs.Schedule.{Turn, in_turn, Ahead, Turning, Drawing};

    ghost State = { Turn };

    ghost state = { λ s. Drawing s.words };

    ghost rule = { in_turn };

    #[inline(always)]
    fn pick(&mut self, live: u16) -> u16 {
        choice_of(self.words.next_word(), live)
    }

    ghost picks_live = { elim [
      | Ahead ↦ λ count h. h
      | Turning t ↦ λ count h. mod-lt t h
      | Drawing s ↦ λ count h. mod-lt (mix_u64 s).0 h
    ] };
}

/// The order in force: one of the three, with its state.
#[derive(Drop)]
pub enum Order {
    First(Forward),
    Turns(Turns),
    Seeded(Seeded),
}

impl Picker for Order {
    ghost use Rattle.std.specs.Prelude.{◌<◌};
    ghost use Rattle.std.proofs.Math.Nat.{mod-lt};
    ghost use Rattle.rand_xoshiro.specs.SplitMix64.{mix_u64};
    ghost use Rattle.wave_model.specs.Schedule.{Turn, in_turn, Ahead, Turning, Drawing};
    ghost use Rattle.uprog_ctl.specs.Orders.{turn_of};

    ghost State = { Turn };

    ghost state = { turn_of };

    ghost rule = { in_turn };

    #[inline(always)]
    fn pick(&mut self, live: u16) -> u16 {
        match self {
            Order::First(forward) => forward.pick(live),
            Order::Turns(turns) => turns.pick(live),
            Order::Seeded(seeded) => seeded.pick(live),
        }
    }

    ghost picks_live = { elim [
      | Ahead ↦ λ count h. h
      | Turning t ↦ λ count h. mod-lt t h
      | Drawing s ↦ λ count h. mod-lt (mix_u64 s).0 h
    ] };
}
