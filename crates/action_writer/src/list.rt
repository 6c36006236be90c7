// A list's records, each function's with its body after it.
ghost use Rattle.std.specs.Prelude.{◌≡◌, ◌+◌, ◌%◌, ◌<◌, ◌≤◌, length};
ghost use Rattle.resolver.specs.Walk.{count_of};
ghost use Rattle.byte_writer.specs.Writer.{HasRoom, Writes};
ghost use Rattle.byte_writer.specs.Data.{framed, value_data};
ghost use Rattle.action_writer.specs.Bodies.{body_at};
ghost use Rattle.action_writer.specs.Steps.{Joins, Writable};

use byte_writer::Writer;
use resolver::lists::{list_end, list_start};
use resolver::passes::Tables;
use slice_words::{Entry, code, entry_at};

// A Push with its first value.
fn write_first(w: &mut Writer, entry: Entry)
    requires short { let s = w.old.script in length (value_data s.bytes.now s.layout (entry.code % 16) entry.first entry.second) ≤ 65535 }
    requires room { let s = w.old.script in HasRoom w.old (framed 150 (value_data s.bytes.now s.layout (entry.code % 16) entry.first entry.second)) }
    ensures { let s = w.old.script in Writes w.old (framed 150 (value_data s.bytes.now s.layout (entry.code % 16) entry.first entry.second)) w.new }
{
    let begun = w.begin();
    write_later(w, begun, entry);
}

// A later value of the Push whose record began there: the record's length is written anew.
fn write_later(w: &mut Writer, begun: usize, entry: Entry)
    requires room { let s = w.old.script in HasRoom w.old (value_data s.bytes.now s.layout (entry.code % 16) entry.first entry.second) }
    requires begun_bound { begun + 3 ≤ w.old.at }
    requires short { let s = w.old.script in
        w.old.at + length (value_data s.bytes.now s.layout (entry.code % 16) entry.first entry.second) ≤ begun + 65538 }
    ensures { let s = w.old.script in Joins w.old begun (value_data s.bytes.now s.layout (entry.code % 16) entry.first entry.second) w.new }
{
    w.value((entry.code % 16) as u8, entry);
    w.frame(begun, code::PUSH);
}

// The list at place j of the finishing order. A function's list has finished before the list that holds the function.
pub fn write_list(list: &[u32], tables: &Tables, j: usize, w: &mut Writer)
    requires writable { let s = w.old.script in Writable s.bytes.now s.layout list.now tables.now.sizes tables.now.offsets }
    requires j_bound { j < count_of list.now }
    requires room { HasRoom w.old (body_at w.old.script.bytes.now list.now j) }
    ensures { Writes w.old (body_at w.old.script.bytes.now list.now j) w.new }
{
    let mut begun = w.at;
    for e in (list_start(list, j)..list_end(list, j)).rev() {
        let entry = entry_at(list, e);
        if entry.code == code::MARK {
            continue;
        }
        if entry.code == code::FUNCTION {
            let k = entry.first as usize;
            w.header(entry.second as usize, tables.sizes[k]);
            write_list(list, tables, k - 1, w);
        } else if entry.code < code::FIRST_VALUE {
            w.action(list, entry, tables.offsets[e]);
        } else if entry.code < code::LATER_VALUE {
            begun = w.at;
            write_first(w, entry);
        } else {
            write_later(w, begun, entry);
        }
    }
}
