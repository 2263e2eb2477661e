// The header, the first line of every job list.
pub(crate) const HEADER: &[u8; 34] = b"name,grade,release,size,deadline\r\n";
