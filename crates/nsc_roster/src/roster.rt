// Which helpers are awake, who is in charge of the listening socket, and each change of that.
ghost use Rattle.std.specs.Prelude.{◌≡◌, ◌≢◌, ◌↔◌, ◌∷◌, [], IfNone, IfSome, IsSome, IsTrue, None, Some};
ghost use Rattle.nsc_roster.specs.Rosters.{Calls, IsChosen, IsIn, IsSound, Lends, MayRest, Rests, Rises, TakesBack, Turns, lowest};

/// How many helpers there are.
pub const HELPERS: usize = 2;

/// What a helper does.
#[derive(Clone, Copy, Debug, PartialEq, Eq)]
pub enum HelperState {
    /// It sleeps, and nobody has called it.
    Asleep,
    /// It sleeps or is on its way: a wake is owed to it.
    Called,
    /// It accepts connections.
    Awake,
}

/// Who is in charge of the listening socket, and so looks at it before it rests.
#[derive(Clone, Copy, Debug, PartialEq, Eq)]
pub enum Charge {
    /// The first thread.
    First,
    /// The helper of this number.
    Helper(usize),
}

/// The helpers, and who is in charge.
#[derive(Clone, Copy, Debug, PartialEq, Eq)]
pub struct Roster {
    pub helpers: [HelperState; HELPERS],
    pub charge: Charge,
}

/// Tells which helper was given the charge.
#[derive(Clone, Copy, Debug, PartialEq, Eq)]
pub struct Lent {
    pub helper: usize,
    /// Whether the helper slept, so that a wake is owed to it.
    pub is_owed: bool,
}

impl Roster {
    /// Makes a roster of helpers that sleep, with the first thread in charge.
    pub fn new() -> Roster
        ensures value { result ≡ record { helpers = HelperState.Asleep ∷ HelperState.Asleep ∷ []; charge = Charge.First } }
        ensures sound { IsSound result }
    {
        Roster {
            helpers: [HelperState::Asleep, HelperState::Asleep],
            charge: Charge::First,
        }
    }

    /// Calls the lowest helper that sleeps, and gives its number: a wake is owed to it. `None` if no helper sleeps.
    pub fn call(self) -> Option<(Roster, usize)>
        ensures called { IfSome result (λ called. Calls called.1 self called.0) }
        ensures none { IfNone result (lowest HelperState.Asleep self ≡ None) }
        ensures sound { IsSound self → IfSome result (λ called. IsSound called.0) }
    {
        let helper = self.lowest(HelperState::Asleep)?;
        Some((self.with_state(helper, HelperState::Called), helper))
    }

    /// Wakes a helper that was called. `None` if it was not: no wake was owed to it.
    pub fn rise(self, helper: usize) -> Option<Roster>
        ensures risen { IfSome result (λ after. Rises helper self after) }
        ensures none { IfNone result (¬ (IsIn HelperState.Called helper self)) }
        ensures sound { IsSound self → IfSome result IsSound }
    {
        if self.is_in(HelperState::Called, helper) {
            Some(self.with_state(helper, HelperState::Awake))
        } else {
            None
        }
    }

    /// Lets an awake helper sleep. `None` if it is in charge, or not awake.
    pub fn rest(self, helper: usize) -> Option<Roster>
        ensures rested { IfSome result (λ after. Rests helper self after) }
        ensures none { IfNone result (¬ (MayRest helper self)) }
        ensures sound { IsSound self → IfSome result IsSound }
    {
        if self.charge != Charge::Helper(helper) && self.is_in(HelperState::Awake, helper) {
            Some(self.with_state(helper, HelperState::Asleep))
        } else {
            None
        }
    }

    /// Gives the first thread's charge to a helper: one that is awake, else one that is called, else one that sleeps, which is called.
    /// `None` if a helper has it.
    pub fn lend(self) -> Option<(Roster, Lent)>
        ensures lent { IfSome result (λ lent. Lends lent.1 self lent.0) }
        ensures none { IsSound self → IfNone result (self.charge ≢ Charge.First) }
        ensures sound { IsSound self → IfSome result (λ lent. IsSound lent.0) }
    {
        match self.charge {
            Charge::First => {
                let lent = self.choose()?;
                let helpers = if lent.is_owed {
                    self.with_state(lent.helper, HelperState::Called).helpers
                } else {
                    self.helpers
                };
                Some((
                    Roster {
                        helpers,
                        charge: Charge::Helper(lent.helper),
                    },
                    lent,
                ))
            }
            Charge::Helper(_) => None,
        }
    }

    /// Gives the charge back to the first thread, with the number of the helper that had it. `None` if no helper has it.
    pub fn take_back(self) -> Option<(Roster, usize)>
        ensures taken { IfSome result (λ taken. TakesBack taken.1 self taken.0) }
        ensures none { IfNone result (self.charge ≡ Charge.First) }
        ensures sound { IsSound self → IfSome result (λ taken. IsSound taken.0) }
    {
        match self.charge {
            Charge::First => None,
            Charge::Helper(helper) => {
                let charge = Charge::First;
                Some((Roster { charge, ..self }, helper))
            }
        }
    }

    // Chooses whom the charge is given: one that is awake, else one that is called, else one that sleeps.
    fn choose(&self) -> Option<Lent>
        ensures chosen { IfSome result (λ lent. IsChosen lent self.now) }
        ensures none { IsSound self.now → IsSome result }
    {
        if let Some(helper) = self.lowest(HelperState::Awake) {
            return Some(Lent {
                helper,
                is_owed: false,
            });
        }
        if let Some(helper) = self.lowest(HelperState::Called) {
            return Some(Lent {
                helper,
                is_owed: false,
            });
        }
        let sleeper = self.lowest(HelperState::Asleep)?;
        Some(Lent {
            helper: sleeper,
            is_owed: true,
        })
    }

    // The lowest helper in a state.
    fn lowest(&self, state: HelperState) -> Option<usize>
        ensures { result ≡ lowest state self.now }
    {
        self.helpers.iter().position(|one| *one == state)
    }

    // Whether a helper is in a state.
    fn is_in(&self, state: HelperState, helper: usize) -> bool
        ensures { IsTrue result ↔ IsIn state helper self.now }
    {
        self.helpers.get(helper) == Some(&state)
    }

    // Changes the state of a helper.
    fn with_state(mut self, helper: usize, state: HelperState) -> Roster
        ensures { Turns helper state self result }
    {
        if helper < HELPERS {
            self.helpers[helper] = state;
        }
        self
    }
}
