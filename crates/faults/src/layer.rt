// The layers of the pile that turn calls down, from the top.
ghost use Rattle.std.specs.Prelude.{◌≡◌};
ghost use Rattle.faults.specs.Causes.{layer_number};

#[derive(Clone, Copy, PartialEq, Eq, Debug)]
pub enum Layer {
    Month = 1,
    Adjustments = 2,
    Book = 3,
    Rule = 4,
}

impl From<Layer> for u8 {
    ghost from_gives = { λ layer n. n ≡ layer_number layer };

    fn from(layer: Layer) -> u8 {
        layer as u8
    }
}
