// What is known of the table on one side: the states that trees have, the live states, and the access entries.
use crate::access::Access;
use liveness::{Life, Reach};

#[derive(Clone, Copy)]
pub struct Survey {
    pub reach: Reach,
    pub life: Life,
    pub access: Access,
}
