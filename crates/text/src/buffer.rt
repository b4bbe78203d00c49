// A lent buffer with the place in it where the next byte goes. The writers are in the other files.
#[derive(Drop)]
pub struct Page<'a> {
    pub out: &'a mut [u8],
    pub at: usize,
}
