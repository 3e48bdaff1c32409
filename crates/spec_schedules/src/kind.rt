/// Which orders of a spec's steps are meant.
#[derive(Clone, Copy, Debug)]
pub enum Kind {
    /// Those that clients can send: each step is sent while its session does not wait.
    Schedules,
    /// All of them. A step that comes while its session waits is dropped.
    Permutations,
}
