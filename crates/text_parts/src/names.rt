// The names of a text's components, which reading hands back as parts of the text.
use list_rules::{ListRead, NAME_WIDTH};
use std::alloc::{AllocError, Global};

// A text that was read, where its first component line begins, and how many it has.
#[derive(Clone, Copy)]
pub struct Names<'a> {
    text: &'a [u8],
    first: usize,
    count: usize,
}

impl<'a> Names<'a> {
    pub fn new(text: &'a [u8], read: &ListRead) -> Names<'a> {
        Names {
            text,
            first: read.first_row,
            count: read.fields.count,
        }
    }

    // The name of a component by its place; `list_reading::name` goes over the whole text.
    fn placed(&self, j: usize) -> &'a [u8] {
        list_reading::name_from(self.text, self.first, j)
    }

    // Whether a component's name is given alike in both ways of asking for it.
    fn is_alike(&self, j: usize) -> bool {
        let name = list_reading::name(self.text, j);
        name.len() == NAME_WIDTH && name == self.placed(j)
    }

    // Joins the names, if each is given alike in both ways.
    pub fn join(&self, alloc: Global) -> Result<Option<Vec<u8>>, AllocError> {
        if !(0..self.count).all(|j| self.is_alike(j)) {
            return Ok(None);
        }
        let names = (0..self.count).flat_map(|j| self.placed(j).iter().copied());
        Ok(Some(names.collect(alloc)?))
    }

    // Whether no name is given where the text has no such component line.
    pub fn has_no_more(&self) -> bool {
        let Names { text, first, count } = *self;
        let far = usize::MAX;
        list_reading::name(text, count).is_empty()
            && list_reading::name(text, far).is_empty()
            && list_reading::name_from(text, first, count).is_empty()
            && list_reading::name_from(text, first, far).is_empty()
            && list_reading::name_from(text, far, 0).is_empty()
            && list_reading::name_from(text, far, far).is_empty()
            && list_reading::name_from(text, text.len(), 0).is_empty()
    }
}

#[cfg(test)]
mod tests {
    use super::*;
    use std::test::Fail;

    // The lines of a list of two components.
    const LINES: [&str; 25] = [
        "[ETF300]",
        "Fundid1=510301",
        "CreationRedemptionUnit=10",
        "MaxCashRatio=0.50000",
        "Publish=1",
        "CreationRedemption=1",
        "Recordnum=2",
        "EstimateCashComponent=0.00",
        "TradingDay=20240111",
        "PreTradingDay=20240110",
        "CashComponent=0.00",
        "NAVperCU=10.00",
        "NAV=1.0000",
        "CreationLimit=0",
        "RedemptionLimit=0",
        "CreationLimitPerUser=0",
        "RedemptionLimitPerUser=0",
        "NetCreationLimit=0",
        "NetRedemptionLimit=0",
        "NetCreationLimitPerUser=0",
        "NetRedemptionLimitPerUser=0",
        "TAGTAG",
        "600000|NAME A  |       4|0|       |       |            |",
        "600036|NAME B  |       3|0|       |       |            |",
        "ENDENDEND",
    ];

    #[test]
    fn names_of_a_list_joined(rt: HostRuntime) -> Result<(), Fail> {
        let mut text = String::new(rt.alloc());
        for line in LINES {
            text.push_str(line)?;
            text.push_str("\r\n")?;
        }
        let mut run = [0; 2 * layout::COMPONENT_WIDTH];
        let joined = match list_reading::read(flags::our_table(), text.as_bytes(), &mut run) {
            Ok(read) => Names::new(text.as_bytes(), &read).join(rt.alloc())?,
            Err(_) => None,
        };
        let names = joined.unwrap_or(Vec::new(rt.alloc()));
        assert_eq!(rt; names.as_slice(), b"NAME A  NAME B  ".as_slice());
        Ok(())
    }
}
