// cases_book: takes books of any shape from standard input, and prints what becomes of them.
// A line of input has nine numbers: what to do, and up to eight arguments.
//   0                                     begins both tables anew, with 7 in every place
//   1 side number price lots              puts an order into its place
//   2 side number                         removes an order; prints whether it rested, its lots, and how many orders are left
//   3 side kind limit lots number percent reference last
//                                         an order sweeps the other side; prints the answer, and the reports with two numbers on either side
//   4 side from value                     writes the value over every number of the table from that place on
//   5 side                                prints the view, and how many numbers behind it are not 0, up to the table's end and past it
// A side is 0 for buy and 1 for sell; a kind is 0 for market and 1 for limit.

#![tactic(auto)]

mod says;
mod steps;

fn main() {
    let mut input = io::large_buffer();
    let n = io::read_full(0, &mut input);
    let mut buys: [u64; steps::LONG] = [7; steps::LONG];
    let mut sells: [u64; steps::LONG] = [7; steps::LONG];
    steps::run(&input[0..n], &mut buys, &mut sells);
}
