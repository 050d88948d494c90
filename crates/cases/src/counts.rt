// How cases ended, told and counted.

// How a case ended: as it must, or not, or a file of it could not be read.
#[derive(Clone, Copy)]
pub enum Ending {
    Right,
    Wrong,
    Unread,
}

// How many cases ended in each way.
#[derive(Clone, Copy)]
pub struct Count {
    pub right: u64,
    pub wrong: u64,
    pub unread: u64,
}

// Before the first case.
pub fn none() -> Count {
    Count {
        right: 0,
        wrong: 0,
        unread: 0,
    }
}

// Says how a case ended, and counts it.
pub fn tell(told: Ending, count: Count) -> Count {
    let mut after = count;
    match told {
        Ending::Right => {
            io::write_all(1, b" right\n");
            after.right = count.right.wrapping_add(1);
        }
        Ending::Wrong => {
            io::write_all(1, b" WRONG\n");
            after.wrong = count.wrong.wrapping_add(1);
        }
        Ending::Unread => {
            io::write_all(1, b" UNREAD\n");
            after.unread = count.unread.wrapping_add(1);
        }
    }
    after
}

// Prints the last line: how many cases, as a program calls them, ended in each way.
pub fn total(count: Count, cases: &[u8]) {
    io::print_decimal(1, count.right);
    io::write_all(1, b" ");
    io::write_all(1, cases);
    io::write_all(1, b" right, ");
    io::print_decimal(1, count.wrong);
    io::write_all(1, b" wrong, ");
    io::print_decimal(1, count.unread);
    io::write_all(1, b" unread\n");
}
