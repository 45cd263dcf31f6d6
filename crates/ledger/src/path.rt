// The two paths by which an amount comes to stand at a key.
#[derive(Clone, Copy, PartialEq, Eq, Debug)]
pub enum Path {
    System,
    Adjustment,
}
