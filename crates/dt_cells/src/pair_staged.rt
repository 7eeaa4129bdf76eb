/// What a stage of a [`Pair`](crate::Pair) leaves for its settling: what the stages of both parts left.
#[derive(Drop)]
pub struct PairStaged<S, T> {
    pub(crate) first: S,
    pub(crate) rest: T,
}
