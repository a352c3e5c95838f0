//! The formulas that the engines are compared on, as postfix steps.
use checker::steps::Step;

const T: Step = Step::True;

const P: Step = Step::Word(0);

const Q: Step = Step::Word(1);

const NOT: Step = Step::Not;

const OR: Step = Step::Or;

const EU: Step = Step::Until;

const EG: Step = Step::Globally;

/// The formulas.
pub const FORMULAS: [&[Step]; 20] = [
    &[T],
    &[P],
    &[P, NOT],
    &[P, Q, OR],
    &[T, P, EU],
    &[P, NOT, EG],
    &[P, EG],
    &[P, Q, EU],
    &[Q, P, EU],
    &[P, NOT, Q, EU],
    &[P, EG, NOT, Q, EU],
    &[T, P, EG, EU],
    &[T, P, NOT, EG, EU, NOT],
    &[P, P, NOT, P, EU, NOT, EU],
    &[P, NOT, P, EU, EG],
    &[P, Q, NOT, OR, EG, P, EU],
    &[T, P, NOT, Q, EU, EU, EG],
    &[P, NOT, EG, NOT, P, OR, EG],
    &[P, P, NOT, EG, EU, P, NOT, OR, EG],
    &[P, NOT, P, P, NOT, P, EU, EU, EU, NOT],
];
