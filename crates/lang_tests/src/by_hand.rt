//! What is worked out by hand.

ghost use Rattle.lang_tests.specs.ByHand.{AllByHand, CeilingsByHand, ValuesByHand};

/// There are numbers by hand of each word operation.
pub fn all_by_hand()
    ensures { AllByHand }
{}

/// The ceiling of each word operation at widths 8 and 32 is the number worked out by hand.
pub fn ceilings_by_hand()
    ensures { CeilingsByHand }
{}

/// The values of each word operation are the numbers worked out by hand, on all arguments of 1 and
/// of 3 bits and on some of 64.
pub fn values_by_hand()
    ensures { ValuesByHand }
{}
