//! Tests of groups: their sheets, layouts, blocks, books and saves, and the frames of their calculations.
#![tactic(auto)]

#[cfg(test)]
mod blocks;
#[cfg(test)]
mod book_groups;
#[cfg(test)]
mod books;
#[cfg(test)]
mod drawn_frames;
#[cfg(test)]
mod fields;
#[cfg(test)]
mod frame_rows;
#[cfg(test)]
mod parts;
#[cfg(test)]
mod saves;
#[cfg(test)]
mod sheets;
#[cfg(test)]
mod spelled_frames;
#[cfg(test)]
mod tables;
