// cases_engine: calls the engine with sessions, tables, rooms and events of any shape, as standard input says.
// A line of input has nine numbers with one byte behind each: what to do, and up to eight arguments; 9999999999999999999 stands for
// the greatest 64-bit number.
//   0 category base close settle tick length days under
//                                         opens a session; prints the refusal's number, 0 for none, then the session and sums of all
//                                         numbers of both tables and the room, which an opening does not touch
//   1 field value                         sets a number of the session, by its place in the list of src/setting.rt
//   2 side place value                    sets a number of a table: 0 for the buys, 1 for the sells
//   3 side count first price lots         puts that many orders into a table, numbered from the first on
//   4 buys sells room time act x y        applies an event, lending that many numbers of each table and of the room; prints the
//                                         answer, 0 and the count of reports or 1 and the refusal's number; then the session and
//                                         the sums again. Acts: 0 to 7 orders of x lots at y (1 sell, 2 market, 4 ioc,
//                                         added up), 8 cancel x, 9 under x, 10 clock, 11 close with settlement x
//   5 side buys sells                     prints the view of a side: its length and its sum, with that many numbers of each table

#![tactic(auto)]

mod calling;
mod says;
mod setting;
mod steps;

fn main() {
    let mut input = io::large_buffer();
    let n = io::read_full(0, &mut input);
    let mut buys: [u64; steps::LONG] = [7; steps::LONG];
    let mut sells: [u64; steps::LONG] = [7; steps::LONG];
    let mut room: [u64; steps::ROOM] = [7; steps::ROOM];
    steps::run(&input[0..n], &mut buys, &mut sells, &mut room);
}
