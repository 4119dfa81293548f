/// Names an object of a pool: its slot, and how many objects were removed from that slot before it came. No two objects
/// of a pool ever have one key.
#[derive(Clone, Copy, PartialEq, Eq, Debug, Drop)]
pub struct Key {
    pub index: u32,
    pub generation: u32,
}
