/// The format in which requests are accepted now.
pub(crate) const PRESENT_FORMAT: u8 = 2;

/// A creation as it was sent.
#[derive(Debug, Drop)]
pub struct CreateRequest {
    pub id: Vec<u8>,
    pub body: Vec<u8>,
}

/// An edit as it was sent.
#[derive(Debug, Drop)]
pub struct EditRequest {
    pub model: Vec<u8>,
    pub base: usize,
    pub id: Vec<u8>,
    pub body: Vec<u8>,
}

/// An accepted request: 1 or 2 for its format, and the versions before and after it.
#[derive(Debug, Drop)]
pub struct Row {
    pub format: u8,
    pub model: Vec<u8>,
    pub version: usize,
    pub base: usize,
    pub id: Vec<u8>,
    pub body: Vec<u8>,
}

/// A version: the row that made it, and its text.
#[derive(Drop)]
pub struct Version<T> {
    pub row: Row,
    pub text: T,
}
