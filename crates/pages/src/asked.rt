// What a command line may ask of a plan.

// Along which order the variables are given values.
#[derive(Drop)]
pub enum Along {
    Natural,
    MinFill,
    Listed(Vec<u8>),
}

// How mini-buckets are to be made: their width, if one is given, the order, and the cells of the area.
#[derive(Drop)]
pub struct Asked {
    pub width: Option<u8>,
    pub along: Along,
    pub cells: usize,
}
