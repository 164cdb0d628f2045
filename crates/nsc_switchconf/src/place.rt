// `Place`: the states of the reading of a service list, and the move of each token.
ghost use Rattle.std.specs.Prelude.{◌≡◌};
ghost use Rattle.nsc_model.specs.Switches.{Rest, at_begin, at_between, at_equated, at_first, at_named, at_negated, at_next, at_place, at_ruled};
ghost use Rattle.nsc_model.specs.declared.switch.SwitchStep.{SwitchStep};
ghost use Rattle.nsc_switchconf.specs.Places.{moved, place_of, status_of};
ghost use Rattle.nsc_switchconf.specs.Tokens.{token_of};

use crate::names;
use crate::rule::{Rule, Status};
use crate::token::Token;
use nsc_model::SwitchService;

/// Where the reading of a list stands.
#[derive(Clone, Copy, Debug)]
pub enum Place {
    /// Before the first service.
    First,
    /// After a service, or after its rules.
    Between,
    /// In brackets, before the first rule.
    Begin,
    /// After a `!`.
    Negated,
    /// After a status.
    Named {
        /// Whether a `!` stands before it.
        negated: bool,
        /// The status.
        status: Status,
    },
    /// After the `=` of a status.
    Equated {
        /// Whether a `!` stands before it.
        negated: bool,
        /// The status.
        status: Status,
    },
    /// After a rule.
    Ruled,
    /// After a rule and white space.
    Next,
}

/// What a token does.
#[derive(Clone, Copy, Debug)]
pub enum Move {
    /// The reading goes on at this place.
    To(Place),
    /// The first service begins.
    First(SwitchService),
    /// The step before is done, and a service begins.
    Another(SwitchService),
    /// A rule applies to the step.
    Rule(Rule),
}

/// What a token does at a place. `None` where it may not stand there.
pub fn move_at(place: Place, token: Token<'_>) -> Option<Move>
    ensures { (step : SwitchStep) (rest : Rest) → at_place (place_of place) (token_of token.entry) step rest ≡ moved step rest result }
{
    match place {
        Place::First => first(token),
        Place::Between => between(token),
        Place::Begin => begin(token),
        Place::Negated => negated(token),
        Place::Named { negated, status } => named(negated, status, token),
        Place::Equated { negated, status } => equated(negated, status, token),
        Place::Ruled => ruled(token),
        Place::Next => next(token),
    }
}

// A list begins with a service.
fn first(token: Token<'_>) -> Option<Move>
    ensures { (step : SwitchStep) (rest : Rest) → at_first (token_of token.entry) step rest ≡ moved step rest result }
{
    match token {
        Token::Word(word) => Some(Move::First(names::service(word))),
        Token::Gap => Some(Move::To(Place::First)),
        _ => None,
    }
}

// After an item: a service, or rules on the one before.
fn between(token: Token<'_>) -> Option<Move>
    ensures { (step : SwitchStep) (rest : Rest) → at_between (token_of token.entry) step rest ≡ moved step rest result }
{
    match token {
        Token::Word(word) => Some(Move::Another(names::service(word))),
        Token::Open => Some(Move::To(Place::Begin)),
        Token::Gap => Some(Move::To(Place::Between)),
        _ => None,
    }
}

// In brackets, before the first rule.
fn begin(token: Token<'_>) -> Option<Move>
    ensures { (step : SwitchStep) (rest : Rest) → at_begin (token_of token.entry) step rest ≡ moved step rest result }
{
    match token {
        Token::Word(word) => Some(Move::To(Place::Named {
            negated: false,
            status: names::status(word)?,
        })),
        Token::Not => Some(Move::To(Place::Negated)),
        Token::Gap => Some(Move::To(Place::Begin)),
        _ => None,
    }
}

// After a `!`, where no white space may stand.
fn negated(token: Token<'_>) -> Option<Move>
    ensures { (step : SwitchStep) (rest : Rest) → at_negated (token_of token.entry) step rest ≡ moved step rest result }
{
    match token {
        Token::Word(word) => Some(Move::To(Place::Named {
            negated: true,
            status: names::status(word)?,
        })),
        _ => None,
    }
}

// After a status.
fn named(negated: bool, status: Status, token: Token<'_>) -> Option<Move>
    ensures { (step : SwitchStep) (rest : Rest) → at_named negated (status_of status) (token_of token.entry) step rest ≡ moved step rest result }
{
    match token {
        Token::Equals => Some(Move::To(Place::Equated { negated, status })),
        Token::Gap => Some(Move::To(Place::Named { negated, status })),
        _ => None,
    }
}

// After the `=` of a status.
fn equated(negated: bool, status: Status, token: Token<'_>) -> Option<Move>
    ensures { (step : SwitchStep) (rest : Rest) → at_equated negated (status_of status) (token_of token.entry) step rest ≡ moved step rest result }
{
    match token {
        Token::Word(word) => Some(Move::Rule(Rule {
            negated,
            status,
            action: names::action(word)?,
        })),
        Token::Gap => Some(Move::To(Place::Equated { negated, status })),
        _ => None,
    }
}

// After a rule.
fn ruled(token: Token<'_>) -> Option<Move>
    ensures { (step : SwitchStep) (rest : Rest) → at_ruled (token_of token.entry) step rest ≡ moved step rest result }
{
    match token {
        Token::Gap => Some(Move::To(Place::Next)),
        Token::Close => Some(Move::To(Place::Between)),
        _ => None,
    }
}

// After a rule and white space.
fn next(token: Token<'_>) -> Option<Move>
    ensures { (step : SwitchStep) (rest : Rest) → at_next (token_of token.entry) step rest ≡ moved step rest result }
{
    match token {
        Token::Word(word) => Some(Move::To(Place::Named {
            negated: false,
            status: names::status(word)?,
        })),
        Token::Not => Some(Move::To(Place::Negated)),
        Token::Gap => Some(Move::To(Place::Next)),
        Token::Close => Some(Move::To(Place::Between)),
        _ => None,
    }
}
