// The calls on trees that need none at hand: the split list after another, and the row of the even tree that holds a point.
use crate::calls::Replay;
use crate::lines::Listed;
use arrayvec::ArrayVec;
use refusal::Refusal;
use wire::inner::read::{byte_at, point_at, short_at};

// The nodes of a list of splits.
fn nodes_at(list: &[u8]) -> ArrayVec<u16, 255> {
    let mut nodes = ArrayVec::new();
    let _ = nodes.extend(list.chunks_exact(2).map(|node| short_at(node, 0)));
    nodes
}

impl Replay {
    // The split list after the one that is given.
    pub(crate) fn next_list(&mut self, fields: &[u8], list: &[u8]) -> Result<(), Refusal> {
        let n = u32::from(byte_at(fields, 0));
        match small_trees::next(n, nodes_at(list).as_slice())? {
            Some(next) => self
                .out
                .line(format_args!("next{}", Listed(next.as_slice()))),
            None => self.out.line("last"),
        }
        Ok(())
    }

    // The row of the even tree that holds the point.
    pub(crate) fn even_row(&mut self, fields: &[u8]) -> Result<(), Refusal> {
        match even::row_of(point_at(fields, 0)) {
            Some(row) => self.out.line(format_args!("row {row}")),
            None => self.out.line("none"),
        }
        Ok(())
    }
}
