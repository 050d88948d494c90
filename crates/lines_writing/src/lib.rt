// lines_writing: settings and events are written as session lines into a lent line room.
// It may use terms, lines_text and lines_writing_law, and what these use. It promises, for any value and room: 16 for a room under 128 bytes,
// then 17 for a number that is too long, with the room as it was; else the room starts with the value's line, its length is answered, and the
// rest is as it was.

#![tactic(auto)]

pub mod forms;

ghost use Rattle.std.specs.Prelude.{◌++◌, ◌≡◌, ◌≤◌};
ghost use Rattle.lines_text_law.specs.Forms.{holes, longest};
ghost use Rattle.lines_reading_law.specs.Lines.{act_head, numbers_form, settings_figures, render_settings, order_form, event_figures, render_event};
ghost use Rattle.lines_writing_law.specs.Lines.{order_figures};
ghost use Rattle.lines_writing_law.specs.Writes.{Writes, WritesForm, Formed};

use terms::{Act, Category, Entry, Event, Kind, Life, Refusal, Settings, Side};

// Writes an order behind the head of its line, which names the side; the head is short and has a place for the time.
fn write_order(head: &[u8], time: u64, o: Entry, room: &mut [u8]) -> Result<usize, Refusal>
    requires { (holes head.now ≡ 1) × (longest head.now ≤ 32) }
    ensures { WritesForm room.old (head.now ++ order_form o.kind o.life) (order_figures time o) result room.new }
{
    let lots = o.lots;
    let kind = o.kind;
    let life = o.life;
    match kind {
        Kind::Limit(price) => {
            let numbers = [time, lots, price];
            match life {
                Life::AllDay => forms::write(
                    head,
                    b" kind=limit life=day qty=# price=#\n",
                    &numbers,
                    room,
                ),
                Life::Ioc => forms::write(
                    head,
                    b" kind=limit life=ioc qty=# price=#\n",
                    &numbers,
                    room,
                ),
            }
        }
        Kind::Market => {
            let numbers = [time, lots];
            match life {
                Life::AllDay => forms::write(
                    head,
                    b" kind=market life=day qty=#\n",
                    &numbers,
                    room,
                ),
                Life::Ioc => forms::write(head, b" kind=market life=ioc qty=#\n", &numbers, room),
            }
        }
    }
}

// Writes the line of an act that is no order.
fn act_line(tail: &[u8], numbers: &[u64], room: &mut [u8]) -> Result<usize, Refusal>
    requires { Formed act_head tail.now numbers.now }
    ensures { WritesForm room.old (act_head ++ tail.now) numbers.now result room.new }
{
    forms::write(b"t=# do=", tail, numbers, room)
}

// Writes the line of an event.
pub fn write_event(event: Event, room: &mut [u8]) -> Result<usize, Refusal>
    ensures { Writes room.old (render_event event) (event_figures event) result room.new }
{
    let time = event.time;
    let act = event.act;
    match act {
        Act::Enter(o) => {
            let side = o.side;
            match side {
                Side::Buy => write_order(b"t=# do=buy", time, o, room),
                Side::Sell => write_order(b"t=# do=sell", time, o, room),
            }
        }
        Act::Withdraw(number) => {
            let numbers = [time, number];
            act_line(b"cancel id=#\n", &numbers, room)
        }
        Act::Under(price) => {
            let numbers = [time, price];
            act_line(b"under price=#\n", &numbers, room)
        }
        Act::Clock => {
            let numbers = [time];
            act_line(b"clock\n", &numbers, room)
        }
        Act::Finish(settle) => {
            let numbers = [time, settle];
            act_line(b"close settle=#\n", &numbers, room)
        }
    }
}

// Writes the numbers of settings behind the head of their line, which names the category; the head is short and has no place for a number.
fn write_numbers(head: &[u8], g: Settings, room: &mut [u8]) -> Result<usize, Refusal>
    requires { (holes head.now ≡ 0) × (longest head.now ≤ 16) }
    ensures { WritesForm room.old (head.now ++ numbers_form) (settings_figures g) result room.new }
{
    let numbers = [g.base, g.close, g.settle, g.tick, g.length, g.days, g.under];
    forms::write(
        head,
        b" base=# close=# settle=# tick=# len=# days=# under=#\n",
        &numbers,
        room,
    )
}

// Writes the line of settings.
pub fn write_settings(settings: Settings, room: &mut [u8]) -> Result<usize, Refusal>
    ensures { Writes room.old (render_settings settings) (settings_figures settings) result room.new }
{
    let category = settings.category;
    match category {
        Category::Broad => write_numbers(b"cat=broad", settings, room),
        Category::Narrow => write_numbers(b"cat=narrow", settings, room),
        Category::Sensitive => write_numbers(b"cat=sensitive", settings, room),
        Category::Energy => write_numbers(b"cat=energy", settings, room),
        Category::Metals => write_numbers(b"cat=metals", settings, room),
        Category::Precious => write_numbers(b"cat=precious", settings, room),
        Category::Gems => write_numbers(b"cat=gems", settings, room),
        Category::Other => write_numbers(b"cat=other", settings, room),
    }
}
