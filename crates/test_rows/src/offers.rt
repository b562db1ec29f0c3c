//! Offers: rows of `offer` in a session, through the top call; and by calls, each declared name
//! tried as an edit.

mod rows;
mod tries;
