// Prints numbers, with a space after each.

pub fn number(x: u64) {
    io::print_decimal(1, x);
    io::write_all(1, b" ");
}

pub fn end() {
    io::write_all(1, b"\n");
}
