//! What the tests exchange: numbers.
use ap_board::Fits;

#[derive(Drop)]
pub struct Parcel {
    pub number: u32,
}

#[derive(Drop)]
pub struct Outcome {
    pub number: u32,
}

/// Any outcome fits, and none needs a cause.
impl Fits<Outcome> for Parcel {
    ghost use Rattle.ap_board.specs.declared.view.Cause.TheVariants.{Free};

    ghost fits = { λ _ _. Unit {0} };

    ghost cause = { λ _. Free };
}
